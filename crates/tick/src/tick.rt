// One tick, from the old count and the old TOP.

ghost use Rattle.std.specs.Prelude.{◌+◌, ◌≤◌, ◌≡◌, cond, length};
ghost use Rattle.tick.specs.Tick.{tick, Worked, Logs};
ghost use Rattle.tick.specs.Sound.{Sound};

use crate::flags::put_flags;
use crate::setting::{Moving, Setting};
use records::Log;
use time::units::Cycle;
use wave::count::{Counter, counted};

// What moved in a tick, and the place after its records.
#[derive(Clone, Copy)]
pub struct Ticked {
    pub moving: Moving,
    pub to: usize,
}

// What moved in a tick, and its records in a log.
#[derive(Clone, Copy)]
pub struct Logged {
    pub moving: Moving,
    pub log: Log,
}

impl Setting {
    // The active compares after a tick.
    pub fn loaded(self, ocr: [u32; 3], load: bool) -> [u32; 3]
        ensures { result ≡ cond load self.buffer ocr }
    {
        if load { self.buffer } else { ocr }
    }

    // One tick, its records written from a place of the area on, where any tick's fit.
    pub fn tick(self, m: Moving, area: &mut [u8], at: usize, cycle: Cycle) -> Ticked
        requires { (Sound self m) × (at + 110 ≤ length area.old) }
        ensures { Worked (tick self m) cycle.0 at area.old result area.new }
    {
        let wave = self.wave;
        let was = m.counter;
        let ocr = m.ocr;
        let direction = was.direction;
        let top = wave.top(ocr[0]);
        let e = self.events(m, top);
        let up = self.raised(e);
        let tifr = m.tifr | up;
        let outs = self.outputs(e, m, area, at, cycle);
        let to = put_flags(e, self.flag_entry(up, tifr), self.id, area, outs.to, cycle);
        let counter = Counter {
            count: wave.next_count(was, top),
            direction: wave.next_direction(direction, e.top, e.zero),
            blocked: false,
            odometer: counted(was.odometer, 1),
        };
        let oc = outs.oc;
        let drives = outs.drives;
        let active = self.loaded(ocr, e.load);
        let mut moving = m;
        moving.counter = counter;
        moving.ocr = active;
        moving.oc = oc;
        moving.drives = drives;
        moving.tifr = tifr;
        Ticked { moving, to }
    }

    // One tick, its records in a log of their own.
    pub fn logged(self, m: Moving, cycle: Cycle) -> Logged
        requires { Sound self m }
        ensures { Logs (tick self m) cycle.0 result }
    {
        let mut bytes = [0u8; 110];
        let t = self.tick(m, &mut bytes, 0, cycle);
        let moving = t.moving;
        let log = Log { bytes, len: t.to };
        Logged { moving, log }
    }
}
