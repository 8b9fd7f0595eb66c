// Lines that show the timer as it stands.

ghost use Rattle.std.specs.Prelude.{IfSome};
ghost use Rattle.counter.specs.Valid.{Valid};
ghost use Rattle.page.specs.Page.{Puts};
ghost use Rattle.timer_lines.specs.Shown.{state_line};

use counter::state::Timer;
use display::state::{distance, state};
use page::Page;
use words::exactly;

// Answers a state line, or a distance line, from the place after its name.
#[tactic(auto, unfolding(crate::specs::Shown::unless_none, figures::specs::Figures::codes))]
pub fn state_line(t: Option<Timer>, page: &mut Page, nth: u64, line: &[u8], at: usize, far: bool)
    requires { IfSome t Valid }
    ensures { Puts page.old page.new (state_line t nth line.now at far) }
{
    match (exactly(line, at, 0), t) {
        (Err(why), _) => page.unreadable(nth, why),
        (Ok(()), None) => page.text(b"no timer"),
        (Ok(()), Some(timer)) => {
            if far {
                distance(page, timer)
            } else {
                state(page, timer)
            }
        }
    }
}
