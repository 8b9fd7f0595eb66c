// The board: its three timers, its scheduler and GTCCR.

ghost use Rattle.std.specs.Prelude.{◌≡◌};
ghost use Rattle.counter.specs.Valid.{Valid as Running};
ghost use Rattle.board.specs.State.{board_to, board_all, fresh_board, Valid};

use counter::state::Timer;
use m328p::{Id, timer0, timer1, timer2};
use plans::planned;
use scheduler::Scheduler;

// The timers by their ids; the scheduler holds the next events that they have.
#[repr(C)]
#[derive(Clone, Copy)]
pub struct Board {
    pub zero: Timer,
    pub one: Timer,
    pub two: Timer,
    pub scheduler: Scheduler,
    pub gtccr: u8,
}

impl Board {
    // A fresh board: three fresh timers, no event, GTCCR clear.
    pub fn new() -> Board
        ensures { (result ≡ fresh_board) × Valid result }
    {
        Board {
            zero: Timer::fresh(timer0()),
            one: Timer::fresh(timer1()),
            two: Timer::fresh(timer2()),
            scheduler: Scheduler::new(),
            gtccr: 0,
        }
    }

    // Yields the board with one timer after a call of its own.
    #[tactic(auto, unfolding(crate::specs::State::board_to))]
    pub fn with(self, id: Id, t: Timer) -> Board
        requires { (Valid self) × Running t }
        ensures { (result ≡ board_to self id t) × Valid result }
    {
        let scheduler = planned(self.scheduler, id, t.next());
        let b = Board { scheduler, ..self };
        match id {
            Id::Zero => Board { zero: t, ..b },
            Id::One => Board { one: t, ..b },
            Id::Two => Board { two: t, ..b },
        }
    }

    // Yields the board with all three timers and GTCCR after what reached them.
    #[tactic(auto, unfolding(crate::specs::State::board_all))]
    pub fn with_all(self, x: Timer, y: Timer, z: Timer, gtccr: u8) -> Board
        requires { (Valid self) × (Running x) × (Running y) × Running z }
        ensures { (result ≡ board_all self x y z gtccr) × Valid result }
    {
        let first = planned(self.scheduler, Id::Zero, x.next());
        let second = planned(first, Id::One, y.next());
        Board {
            zero: x,
            one: y,
            two: z,
            scheduler: planned(second, Id::Two, z.next()),
            gtccr,
        }
    }
}
