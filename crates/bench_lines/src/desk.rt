// What a script works on.

ghost use Rattle.std.specs.Prelude.{◌≡◌};
ghost use Rattle.bench_lines.specs.Desk.{Sound, Stable, fresh_bench, fresh_shelf};

use board::state::Board;
use counter::state::Timer;
use door::Door;
use oscillator::state::Watchdog;
use record_ring::Ring;
use scheduler::Scheduler;

// Whose records the file takes: one of the board's timers', the script's timer's, or nobody's.
#[derive(Clone, Copy, PartialEq, Eq)]
pub enum Whose {
    Zero,
    One,
    Two,
    Script,
    Nobody,
}

// What most lines work on: one timer, one watchdog, one door, one log, and the number of the last line. Of the file, whose
// records it takes, how many bytes of them the last line has for it, and whether it is begun anew.
#[derive(Clone, Copy)]
pub struct Bench {
    pub timer: Option<Timer>,
    pub watchdog: Option<Watchdog>,
    pub door: Option<Door>,
    pub ring: Ring,
    pub line: u64,
    pub whose: Whose,
    pub kept: usize,
    pub anew: bool,
}

// What few lines work on, which is large and stands aside from the bench: one scheduler, one board.
#[derive(Clone, Copy)]
pub struct Shelf {
    pub scheduler: Scheduler,
    pub board: Option<Board>,
}

// All that a script works on.
#[derive(Clone, Copy)]
pub struct Desk {
    pub bench: Bench,
    pub shelf: Shelf,
}

impl Bench {
    // The bench before a script's first line.
    pub fn new() -> Bench
        ensures { (Sound result) × (result ≡ fresh_bench) }
    {
        Bench {
            timer: None,
            watchdog: None,
            door: None,
            ring: Ring::new(),
            line: 0,
            whose: Whose::Nobody,
            kept: 0,
            anew: false,
        }
    }
}

impl Shelf {
    // The shelf before a script's first line.
    pub fn new() -> Shelf
        ensures { (Stable result) × (result ≡ fresh_shelf) }
    {
        Shelf {
            scheduler: Scheduler::new(),
            board: None,
        }
    }
}
