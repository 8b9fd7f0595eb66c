// Lines that call the timer.

ghost use Rattle.std.specs.Prelude.{◌≤◌, ◌≡◌, length, IfSome};
ghost use Rattle.answers.specs.Answers.{Tells};
ghost use Rattle.counter.specs.Valid.{Valid};
ghost use Rattle.page.specs.Page.{Puts};
ghost use Rattle.passage.specs.Passage.{ticks};
ghost use Rattle.timer.specs.Calls.{answered};
ghost use Rattle.timer_lines.specs.Called.{told_of, called_of, call_line, Leaves};

use crate::asked::{Asked, Name};
use answers::Outcome;
use counter::state::Timer;
use display::answer::answer;
use page::Page;
use room::{changed, fill};
use time::units::Cycle;
use timer::calls::Call;

// What a line leaves: the timer, if there is one, and how many bytes of the area are records.
#[derive(Clone, Copy)]
pub struct Left {
    pub timer: Option<Timer>,
    pub written: usize,
}

// Puts a call's answer, or where the area changed beyond what was written.
#[tactic(auto, unfolding(crate::specs::Called::told_of, figures::specs::Figures::codes))]
fn told(page: &mut Page, o: Outcome, area: &[u8])
    requires { Valid o.timer }
    ensures { Puts page.old page.new (told_of o area.now) }
{
    let end = changed(area, o.written);
    if end < area.len() {
        page.number(b"area changed at ", end as u64)
    } else {
        answer(page, o, area)
    }
}

// Calls the timer: an advance and a reset are lent it, every other call takes it by value.
fn call_timer(t: Timer, call: Call, cycle: Cycle, area: &mut [u8]) -> Outcome
    requires { Valid t }
    ensures { Tells (answered ticks t call cycle.0 area.old) result area.new }
{
    match call {
        Call::Advance => lending::local::advance(t, cycle, area),
        Call::Reset => lending::local::reset(t, cycle, area),
        _ => dispatch::call(t, call, cycle, area),
    }
}

// Calls the timer on an area, filled, and puts the answer.
fn called(t: Timer, asked: Asked, page: &mut Page, area: &mut [u8]) -> Left
    requires { Valid t }
    ensures { Leaves (called_of t asked (length area.old)) page.old page.new area.new result }
{
    fill(area);
    let o = call_timer(t, asked.call, Cycle(asked.cycle), area);
    told(page, o, area);
    Left {
        timer: Some(o.timer),
        written: o.written,
    }
}

// Answers a call's line from the place after its name, on an area of which the call has as many bytes as it asks for.
#[tactic(auto, unfolding(crate::specs::Called::heard_of, figures::specs::Figures::codes))]
pub fn call_line(
    t: Option<Timer>,
    page: &mut Page,
    nth: u64,
    line: &[u8],
    at: usize,
    name: Name,
    area: &mut [u8],
) -> Left
    requires { (IfSome t Valid) × (4096 ≤ length area.old) }
    ensures { Leaves (call_line t nth line.now at name area.old) page.old page.new area.new result }
{
    match (Asked::of(line, at, name), t) {
        (Err(why), _) => page.unreadable(nth, why),
        (Ok(_), None) => page.text(b"no timer"),
        (Ok(asked), Some(timer)) => return called(timer, asked, page, &mut area[..asked.size]),
    }
    Left {
        timer: t,
        written: 0,
    }
}
