// What happens in a tick.

ghost use Rattle.std.specs.Prelude.{◌≡◌};
ghost use Rattle.tick.specs.Tick.{events_at};

use crate::setting::{Moving, Setting};
use wave::kinds::{ICR, fast_pwm};

// What happens in a tick: matches A, B and C, at TOP or at 0, the flags, the load, BOTTOM, and a match's slope.
#[derive(Clone, Copy)]
pub struct Events {
    pub a: bool,
    pub b: bool,
    pub c: bool,
    pub top: bool,
    pub zero: bool,
    pub overflow: bool,
    pub capture: bool,
    pub load: bool,
    pub bottom: bool,
    pub rises: bool,
}

impl Setting {
    // What happens in the next tick, at a TOP.
    pub fn events(self, m: Moving, top: u32) -> Events
        ensures { result ≡ events_at self m top }
    {
        let wave = self.wave;
        let counter = m.counter;
        let count = counter.count;
        let direction = counter.direction;
        let ocr = m.ocr;
        let falls = wave.falls(counter);
        let attop = !falls & (count == top);
        let atzero = falls & (count == 0);
        Events {
            a: counter.hits(wave.a, ocr[0]),
            b: counter.hits(wave.b, ocr[1]),
            c: counter.hits(wave.c, ocr[2]),
            top: attop,
            zero: atzero,
            overflow: wave.overflows(attop, atzero, count == wave.max),
            capture: (wave.source == ICR) & self.capture & attop,
            load: wave.loads(attop, atzero),
            bottom: fast_pwm(wave.kind) & attop,
            rises: (count != top) & ((count == 0) | !(direction < 0)),
        }
    }
}
