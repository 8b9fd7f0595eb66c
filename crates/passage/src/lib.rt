// A run: event by event up to a tick, or to the first whose records do not fit.

#![tactic(auto)]

ghost use Rattle.std.specs.Prelude.{◌+◌, ◌≡◌, length};
ghost use Rattle.wave.specs.Count.{Turns};
ghost use Rattle.passage.specs.Passage.{odometer_to, Ready, Ran, Made, Finishes};

use records::Log;
use tick::setting::{Moving, Setting};
use time::units::{Prescaler, Ticks};
use wave::count::counted;

// Where a run stands: what moved, the quiet ticks before its next event, the number of its last tick, and the place of the next record.
#[derive(Clone, Copy)]
pub struct Progress {
    pub moving: Moving,
    pub gap: u32,
    pub at: Ticks,
    pub to: usize,
}

// An event's tick made aside: how the run stands after it, and its records.
#[derive(Clone, Copy)]
pub struct Aside {
    pub after: Progress,
    pub log: Log,
}

// Where a run ends: at its last tick, or before the first whose records do not fit.
#[derive(Clone, Copy)]
pub struct Finished {
    pub moving: Moving,
    pub at: Ticks,
    pub to: usize,
    pub paused: bool,
}

// What moves, with another odometer.
pub fn dialled(m: Moving, odometer: u64) -> Moving
    requires { Turns m.counter.direction }
    ensures { result ≡ odometer_to m odometer }
{
    let mut counter = m.counter;
    counter.odometer = odometer;
    let mut moving = m;
    moving.counter = counter;
    moving
}

impl Progress {
    // Event by event up to a tick, while there are 110 bytes for the event's records. The odometer stands still meanwhile, and
    // is then put on by the ticks made.
    pub fn run(self, s: Setting, end: Ticks, p: Prescaler, area: &mut [u8]) -> Progress
        requires { Ready s p self end.0 (length area.old) }
        ensures { Ran s p self end.0 area.old result area.new }
    {
        let wave = s.wave;
        let from = self.at;
        let mut m = self.moving;
        let begun = m.counter;
        let odometer = begun.odometer;
        let mut gap = self.gap;
        let mut at = from.0;
        let mut to = self.to;
        while ((gap as u64) < end.0 - at) & (110 <= area.len() - to) {
            let near = m.skip(wave, gap);
            let tick = at + (gap as u64) + 1;
            let t = s.tick(near, area, to, p.cycle(Ticks(tick)));
            let moved = t.moving;
            m = dialled(moved, odometer);
            to = t.to;
            at = tick;
            let counter = m.counter;
            let ocr = m.ocr;
            gap = wave.gap(counter, ocr);
        }
        Progress {
            moving: dialled(m, counted(odometer, at - from.0)),
            gap,
            at: Ticks(at),
            to,
        }
    }

    // The next event's tick, its records in a log aside.
    pub fn aside(self, s: Setting, p: Prescaler) -> Aside
        requires { Ready s p self (self.at.0 + (self.gap + 1)) self.to }
        ensures { Made s p self result }
    {
        let wave = s.wave;
        let last = self.at;
        let m = self.moving;
        let near = m.skip(wave, self.gap);
        let tick = last.0 + ((self.gap as u64) + 1);
        let t = s.logged(near, p.cycle(Ticks(tick)));
        let moving = t.moving;
        let log = t.log;
        let counter = moving.counter;
        let ocr = moving.ocr;
        let after = Progress {
            moving,
            gap: wave.gap(counter, ocr),
            at: Ticks(tick),
            to: log.len,
        };
        Aside { after, log }
    }

    // The events near the area's end: each is made aside first, and written if it fits. Then the quiet ticks that are left.
    pub fn finish(self, s: Setting, end: Ticks, p: Prescaler, area: &mut [u8]) -> Finished
        requires { Ready s p self end.0 (length area.old) }
        ensures { Finishes s p self end.0 area.old result area.new }
    {
        let wave = s.wave;
        let first = self.at;
        let mut r = self;
        let mut at = first.0;
        while (r.gap as u64) < end.0 - at {
            let to = r.to;
            let gap = r.gap;
            let next = r.aside(s, p);
            let log = next.log;
            let after = next.after;
            let moving = after.moving;
            if log.write(area, to) {
                let tick = after.at;
                at = tick.0;
                r = Progress {
                    moving,
                    gap: after.gap,
                    at: tick,
                    to: to + log.len,
                };
            } else {
                let m = r.moving;
                return Finished {
                    moving: m.skip(wave, gap),
                    at: Ticks(at + (gap as u64)),
                    to,
                    paused: true,
                };
            }
        }
        let m = r.moving;
        Finished {
            moving: m.skip(wave, (end.0 - at) as u32),
            at: end,
            to: r.to,
            paused: false,
        }
    }
}
