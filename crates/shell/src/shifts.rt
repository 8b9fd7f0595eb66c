// How far a late edge moves the capture, for Rust and C.

ghost use Rattle.std.specs.Prelude.{◌≡◌};
ghost use Rattle.counter.specs.Valid.{Valid};
ghost use Rattle.shift.specs.Shift.{shift_of};
ghost use Rattle.replies.specs.Shifts.{shifted_of};

use counter::state::Timer;
use replies::shifts::{Shifted, later};

// Yields how many ticks later an edge at the second cycle is captured than one at the first, of the timer as it stands.
#[unsafe(no_mangle)]
pub extern "C" fn paddlemauve_shift(t: Timer, first: u64, second: u64) -> Shifted
    requires { Valid t }
    ensures { result ≡ shifted_of (shift_of t first second) }
{
    later(t, first, second)
}
