// Writes that leave the next event as it is: a high byte, and the low byte of a compare that waits in its buffer.

ghost use Rattle.std.specs.Prelude.{◌≡◌};
ghost use Rattle.config.specs.Config.{place_of};
ghost use Rattle.held.specs.Held.{Kept};
ghost use Rattle.held.specs.Write.{way_at, Waits, buffered};

use crate::quick::{refusing, stilling};
use crate::reply::Reply;
use crate::state::Held;
use config::Config;
use time::clock::Clock;
use wave::count::Counter;
use wave::kinds::non_pwm;

// The way of a write: 1 to a high byte, the register's place to the low byte of a compare that is buffered, 16 more than the place to any other; 32 where it is refused.
pub fn way_of(config: Config, kind: u8, latest: u64, next: u64, address: u16, cycle: u64) -> u8
    ensures { result ≡ way_at (place_of config address) kind latest next cycle }
{
    let place = config.place(address);
    if (place <= 9) & (place % 2 == 1) {
        if refusing(false, latest, next, cycle) == 0 {
            1
        } else {
            32
        }
    } else if 12 < place {
        32
    } else if refusing(true, latest, next, cycle) != 0 {
        32
    } else if (2 <= place) & (place <= 6) & !non_pwm(kind) {
        place
    } else {
        16 + place
    }
}

// What the low byte of a buffered compare changes of a held timer, and the reply.
#[derive(Clone, Copy)]
pub struct Buffered {
    pub counter: Counter,
    pub clock: Clock,
    pub buffer: [u32; 3],
    pub reply: Reply,
}

// Time passes up to the cycle, and the compare at a place takes the byte, with TEMP above it, in its buffer.
pub fn buffering(h: Held, place: u8, value: u8, cycle: u64) -> Buffered
    requires { (Kept h) × Waits h place cycle }
    ensures { result ≡ buffered h place value cycle }
{
    let t = h.timer;
    let s = stilling(t.counter, t.clock, h.shift, h.down, cycle);
    let counter = s.counter;
    let clock = s.clock;
    let mut buffer = t.buffer;
    buffer[(place / 2 - 1) as usize] = t.committed(value);
    Buffered {
        counter,
        clock,
        buffer,
        reply: Reply::new(0, 0, 0, 0, h.next, h.flags),
    }
}
