// Lines that ask how far a late edge moves the capture.

ghost use Rattle.std.specs.Prelude.{◌≡◌, IfSome};
ghost use Rattle.counter.specs.Valid.{Valid};
ghost use Rattle.page.specs.Page.{Puts};
ghost use Rattle.timer_lines.specs.Shown.{moved_of, edges_of, shift_line};

use counter::state::Timer;
use page::Page;
use shift::{Moved, shift};
use time::units::Cycle;
use words::{Unreadable, decimal, exactly};

// Puts a shift, with its sign, or its refusal.
#[tactic(auto, unfolding(crate::specs::Shown::moved_of, figures::specs::Figures::codes))]
fn put(page: &mut Page, moved: Moved)
    ensures { Puts page.old page.new (moved_of moved) }
{
    match moved {
        Moved::Refused(n) => page.number(b"refused ", n as u64),
        Moved::By(by) => {
            let size = by.unsigned_abs() as u64;
            if by < 0 {
                page.number(b"ok shift=-", size)
            } else {
                page.number(b"ok shift=", size)
            }
        }
    }
}

// The cycles of the two edges that a line asks for.
#[tactic(auto, unfolding(crate::specs::Shown::edges_of, words::specs::Words::and_then))]
fn edges(line: &[u8], at: usize) -> Result<(Cycle, Cycle), Unreadable>
    ensures { result ≡ edges_of line.now at }
{
    exactly(line, at, 2)?;
    let first = decimal(line, at, u64::MAX)?;
    let second = decimal(line, first.end, u64::MAX)?;
    Ok((Cycle(first.value), Cycle(second.value)))
}

// Answers a shift line from the place after its name.
#[tactic(auto, using(crate::proofs::Telling::shift_is), unfolding(crate::specs::Shown::unless_none, figures::specs::Figures::codes))]
pub fn shift_line(t: Option<Timer>, page: &mut Page, nth: u64, line: &[u8], at: usize)
    requires { IfSome t Valid }
    ensures { Puts page.old page.new (shift_line t nth line.now at) }
{
    match (edges(line, at), t) {
        (Err(why), _) => page.unreadable(nth, why),
        (Ok(_), None) => page.text(b"no timer"),
        (Ok((first, second)), Some(timer)) => put(page, shift(timer, first, second)),
    }
}
