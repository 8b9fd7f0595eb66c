// A fresh timer of an accepted configuration.

ghost use Rattle.std.specs.Prelude.{◌≡◌};
ghost use Rattle.counter.specs.Fresh.{fresh_of, started_of};
ghost use Rattle.counter.specs.Valid.{Valid};

use crate::state::{Flags, Registers, Timer};
use config::Config;
use tick::setting::Drives;
use time::clock::Clock;
use time::halts::Halts;
use time::units::Cycle;
use wave::count::Counter;

// The refusal's number, 0 for none, and the timer.
#[derive(Clone, Copy)]
pub struct Started {
    pub number: u8,
    pub timer: Timer,
}

impl Timer {
    // A timer as it stands at cycle 0, before any call.
    pub fn fresh(config: Config) -> Timer
        ensures { result ≡ fresh_of config }
    {
        let start = Cycle(0);
        let counter = Counter {
            count: 0,
            direction: 1,
            blocked: false,
            odometer: 0,
        };
        let drives = Drives {
            enables: [0, 0, 0],
            values: [0, 0, 0],
        };
        let registers = Registers {
            tccra: 0,
            tccrb: 0,
            icr: 0,
            temp: 0,
        };
        let flags = Flags { tifr: 0, timsk: 0 };
        let clock = Clock {
            sync: start,
            origin: start,
            latest: start,
        };
        Timer {
            config,
            counter,
            ocr: [0, 0, 0],
            buffer: [0, 0, 0],
            oc: [0, 0, 0],
            drives,
            registers,
            flags,
            clock,
            halts: Halts::none(),
        }
    }

    // Yields a fresh timer, or refusal 1 where the configuration breaks a rule, beside a timer of the least configuration.
    pub fn new(config: Config) -> Started
        ensures { (result ≡ started_of config) × Valid result.timer }
    {
        if config.is_accepted() {
            Started {
                number: 0,
                timer: Timer::fresh(config),
            }
        } else {
            let least = Config::least();
            Started {
                number: 1,
                timer: Timer::fresh(least),
            }
        }
    }
}
