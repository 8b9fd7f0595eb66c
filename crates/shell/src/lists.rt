// A list of register writes, for Rust and C.

ghost use Rattle.passage.specs.Passage.{ticks};
ghost use Rattle.counter.specs.Valid.{Valid};
ghost use Rattle.writes.specs.Writes.{listing};
ghost use Rattle.replies.specs.Lists.{Ends};

use counter::state::Timer;
use replies::lists::{Ended, listed};

// A list of register writes, ten bytes an item, on a timer.
#[unsafe(no_mangle)]
pub extern "C" fn paddlemauve_writes(t: Timer, list: &[u8], area: &mut [u8]) -> Ended
    requires { Valid t }
    ensures { Ends (listing ticks t list.now area.old) result area.new }
{
    listed(t, list, area)
}
