// The door that lines set and take edges on. There is none before a rule is accepted.

ghost use Rattle.std.specs.Prelude.{IfSome, IfOk};
ghost use Rattle.door.specs.Door.{Valid, due_values};
ghost use Rattle.page.specs.Page.{Puts};
ghost use Rattle.door_lines.specs.Rules.{Leaves, due_line, kept_of, door_line};

use crate::asked::Asked;
use door::{Door, Refusal};
use page::Page;
use time::units::Cycle;

// Puts when a close is due.
#[tactic(auto, unfolding(crate::specs::Rules::due_line, figures::specs::Figures::codes))]
fn due(page: &mut Page, due: Option<Cycle>)
    ensures { Puts page.old page.new (due_line (due_values due)) }
{
    match due {
        Some(cycle) => page.number(b"ok due=", cycle.0),
        None => page.text(b"ok due=none"),
    }
}

// Keeps the door of a call that was accepted, and puts when its close is due; where the call was refused the door stays as it was.
#[tactic(auto, unfolding(crate::specs::Rules::kept_of, figures::specs::Figures::codes))]
fn kept(door: Option<Door>, called: Result<Door, Refusal>, page: &mut Page) -> Option<Door>
    requires { IfSome door Valid × IfOk called Valid }
    ensures { Leaves (kept_of door called) page.old page.new result }
{
    match called {
        Ok(after) => {
            due(page, after.due());
            Some(after)
        }
        Err(refusal) => {
            page.number(b"refused ", refusal.number() as u64);
            door
        }
    }
}

// Answers a door line from the place after its name.
#[tactic(auto, unfolding(crate::specs::Rules::heard_of, figures::specs::Figures::codes))]
pub fn door_line(
    door: Option<Door>,
    page: &mut Page,
    nth: u64,
    line: &[u8],
    at: usize,
) -> Option<Door>
    requires { IfSome door Valid }
    ensures { Leaves (door_line door nth line.now at) page.old page.new result }
{
    match (Asked::of(line, at), door) {
        (Err(why), _) => {
            page.unreadable(nth, why);
            door
        }
        (Ok(Asked::Rule(rule)), _) => kept(door, Door::set(rule), page),
        (Ok(Asked::Edge(_)), None) => {
            page.text(b"no door");
            door
        }
        (Ok(Asked::Edge(cycle)), Some(set)) => kept(door, set.edge(cycle), page),
    }
}
