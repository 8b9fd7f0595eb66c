// How far a late edge moves the capture, in numbers.

ghost use Rattle.std.specs.Prelude.{◌≡◌};
ghost use Rattle.counter.specs.Valid.{Valid};
ghost use Rattle.shift.specs.Shift.{shift_of};
ghost use Rattle.replies.specs.Shifts.{shifted_of};

use counter::state::Timer;
use shift::{Moved, shift};
use time::units::Cycle;

// number is the refusal's, 0 for none; ticks is the shift, 0 beside a refusal.
#[repr(C)]
#[derive(Clone, Copy)]
pub struct Shifted {
    pub number: u8,
    pub ticks: i32,
}

// Yields a shift in numbers.
fn numbers(moved: Moved) -> Shifted
    ensures { result ≡ shifted_of moved }
{
    match moved {
        Moved::Refused(number) => Shifted { number, ticks: 0 },
        Moved::By(ticks) => Shifted { number: 0, ticks },
    }
}

// Yields how many ticks later an edge at the second cycle is captured than one at the first, of the timer as it stands.
pub fn later(t: Timer, first: u64, second: u64) -> Shifted
    requires { Valid t }
    ensures { result ≡ shifted_of (shift_of t first second) }
{
    numbers(shift(t, Cycle(first), Cycle(second)))
}
