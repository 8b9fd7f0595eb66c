// Lines that make a fresh timer.

ghost use Rattle.std.specs.Prelude.{IfSome};
ghost use Rattle.counter.specs.Valid.{Valid};
ghost use Rattle.timer_lines.specs.Made.{made_of, config_line, Makes};

use config::Config;
use counter::state::Timer;
use page::Page;
use script::configs::{of_keys, of_preset};
use words::Unreadable;

// What a line leaves that makes a timer: the timer, if there is one, and whether it is a fresh one.
#[derive(Clone, Copy)]
pub struct Made {
    pub timer: Option<Timer>,
    pub fresh: bool,
}

// Makes a fresh timer of what a line gives, unless that cannot be read or is refused.
#[tactic(auto, unfolding(crate::specs::Made::made_of, figures::specs::Figures::codes))]
fn make(t: Option<Timer>, page: &mut Page, nth: u64, given: Result<Config, Unreadable>) -> Made
    requires { IfSome t Valid }
    ensures { Makes (made_of t nth given) page.old page.new result }
{
    let old = Made {
        timer: t,
        fresh: false,
    };
    match given {
        Err(why) => {
            page.unreadable(nth, why);
            old
        }
        Ok(config) => {
            let started = Timer::new(config);
            if started.number != 0 {
                page.text(b"refused 1");
                return old;
            }
            page.text(b"ok config");
            Made {
                timer: Some(started.timer),
                fresh: true,
            }
        }
    }
}

// Answers a config line, or a preset line, from the place after its name.
pub fn config_line(
    t: Option<Timer>,
    page: &mut Page,
    nth: u64,
    line: &[u8],
    at: usize,
    preset: bool,
) -> Made
    requires { IfSome t Valid }
    ensures { Makes (config_line t nth line.now at preset) page.old page.new result }
{
    let given = if preset {
        of_preset(line, at)
    } else {
        of_keys(line, at)
    };
    make(t, page, nth, given)
}
