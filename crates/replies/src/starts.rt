// A start by value, in numbers.

ghost use Rattle.counter.specs.Fresh.{started_of};
ghost use Rattle.replies.specs.Starts.{Begins};

use config::Config;
use counter::state::Timer;
use held::state::{Held, held_of};

// The refusal's number, 0 for none, and the timer.
#[repr(C)]
#[derive(Clone, Copy)]
pub struct Begun {
    pub number: u8,
    pub timer: Held,
}

// Yields a fresh timer of a configuration, or refusal 1 beside a timer of the least configuration.
pub fn start(config: Config) -> Begun
    ensures { Begins (started_of config) result }
{
    let s = Timer::new(config);
    let t = s.timer;
    let timer = held_of(t);
    Begun {
        number: s.number,
        timer,
    }
}
