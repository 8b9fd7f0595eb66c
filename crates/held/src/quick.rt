// What the calls of a busy bench make of the parts that they need.

ghost use Rattle.std.specs.Prelude.{◌<◌, ◌-◌, ◌≡◌};
ghost use Rattle.std.specs.Int.Bits.{bit_and};
ghost use Rattle.held.specs.Quick.{refusing, answering, nexting, stilled, counting, Passing};

use crate::reply::Reply;
use crate::state::NEVER;
use time::clock::Clock;
use time::units::Cycle;
use wave::count::{Counter, counted};
use wave::distance::moved;

// 2 or 3 where the cycle is too large or too early, 6 where the call may not pass the next event, else 0.
pub fn refusing(tested: bool, latest: u64, next: u64, cycle: u64) -> u8
    ensures { result ≡ refusing tested latest next cycle }
{
    let n = Cycle(cycle).refusal(Cycle(latest));
    if n != 0 {
        n
    } else if tested & (next <= cycle) {
        6
    } else {
        0
    }
}

// The latest cycle after a call that changes nothing else, and its reply.
#[derive(Clone, Copy)]
pub struct Answered {
    pub latest: u64,
    pub reply: Reply,
}

// A call that yields a value and changes the latest cycle alone.
pub fn answering(
    tested: bool,
    what: u8,
    value: u64,
    next: u64,
    flags: u8,
    latest: u64,
    cycle: u64,
) -> Answered
    ensures { result ≡ answering tested what value next flags latest cycle }
{
    let n = refusing(tested, latest, next, cycle);
    if n != 0 {
        Answered {
            latest,
            reply: Reply::new(n, 5, 0, 0, 0, 0),
        }
    } else {
        Answered {
            latest: cycle,
            reply: Reply::new(0, what, value, 0, next, flags),
        }
    }
}

// The next event.
pub fn nexting(next: u64, flags: u8, latest: u64, cycle: u64) -> Answered
    ensures { result ≡ nexting next flags latest cycle }
{
    if next == NEVER {
        answering(true, 3, 0, next, flags, latest, cycle)
    } else {
        answering(true, 2, next, next, flags, latest, cycle)
    }
}

// TIFR after ones are written to it.
pub fn clearing(tifr: u8, ones: u8) -> u8
    ensures { result ≡ bit_and tifr (255 - ones) }
{
    tifr & (255 - ones)
}

// The counter and the clock after time that passed below the next event.
#[derive(Clone, Copy)]
pub struct Stilled {
    pub counter: Counter,
    pub clock: Clock,
}

// Time passes up to a cycle below the next event: a shift makes ticks of cycles.
pub fn stilling(counter: Counter, clock: Clock, shift: u8, down: bool, cycle: u64) -> Stilled
    requires { Passing counter clock shift down cycle }
    ensures { result ≡ stilled counter clock shift down cycle }
{
    let origin = clock.origin;
    let sync = clock.sync;
    let direction = counter.direction;
    let ticks = ((cycle - origin.0) >> shift) - ((sync.0 - origin.0) >> shift);
    let n = ticks as u32;
    Stilled {
        counter: Counter {
            count: moved(down, counter.count, n),
            direction,
            blocked: counter.blocked & (n == 0),
            odometer: counted(counter.odometer, ticks),
        },
        clock: Clock {
            sync: Cycle(cycle),
            origin,
            latest: Cycle(cycle),
        },
    }
}

// The counter, the clock and TEMP after the count's low byte is read, and the byte.
#[derive(Clone, Copy)]
pub struct Counted {
    pub counter: Counter,
    pub clock: Clock,
    pub temp: u8,
    pub byte: u8,
}

// The low byte of TCNTn: time passes up to the cycle, and in a wide timer the high byte goes to TEMP.
pub fn counting(
    counter: Counter,
    clock: Clock,
    wide: bool,
    temp: u8,
    shift: u8,
    down: bool,
    cycle: u64,
) -> Counted
    requires { Passing counter clock shift down cycle }
    ensures { result ≡ counting counter clock wide temp shift down cycle }
{
    let s = stilling(counter, clock, shift, down, cycle);
    let moved = s.counter;
    let now = s.clock;
    let count = moved.count;
    let byte = (count % 256) as u8;
    if wide {
        Counted {
            counter: moved,
            clock: now,
            temp: (count / 256 % 256) as u8,
            byte,
        }
    } else {
        Counted {
            counter: moved,
            clock: now,
            temp,
            byte,
        }
    }
}
