// Why a list of register writes ended, in numbers.

ghost use Rattle.std.specs.Prelude.{◌≡◌};
ghost use Rattle.passage.specs.Passage.{ticks};
ghost use Rattle.counter.specs.Valid.{Valid};
ghost use Rattle.writes.specs.Writes.{reason_of, listing};
ghost use Rattle.replies.specs.Lists.{Ends};

use answers::{Answer, Outcome};
use counter::state::Timer;
use held::calls::holding;
use held::reply::Reply;
use held::state::Held;
use writes::Why;

// The timer after a list, the items done, and in numbers why it ended, with the bytes written.
#[repr(C)]
#[derive(Clone, Copy)]
pub struct Ended {
    pub timer: Held,
    pub done: u64,
    pub reply: Reply,
}

// Yields why a list ended as a call would answer it.
fn answer_of(why: Why) -> Answer
    ensures { result ≡ reason_of why }
{
    match why {
        Why::AllDone => Answer::Done,
        Why::Paused(c, f) => Answer::Paused(c, f),
        Why::Refused(n) => Answer::Refused(n),
    }
}

// A list of register writes, ten bytes an item, on a timer.
pub fn listed(t: Timer, list: &[u8], area: &mut [u8]) -> Ended
    requires { Valid t }
    ensures { Ends (listing ticks t list.now area.old) result area.new }
{
    let w = writes::writes(t, list, area);
    let timer = w.timer;
    let written = w.written;
    let why = w.why;
    let answer = answer_of(why);
    let c = holding(Outcome {
        answer,
        timer,
        written,
    });
    let held = c.held;
    let reply = c.reply;
    Ended {
        timer: held,
        done: w.done as u64,
        reply,
    }
}
