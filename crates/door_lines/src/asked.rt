// What a door's line asks for.

ghost use Rattle.std.specs.Prelude.{◌≡◌};
ghost use Rattle.door_lines.specs.Asked.{one_of, two_of, edge_of, behind_of, placed_of, asked_of, rule_of};

use door::Rule;
use time::units::Cycle;
use words::{Unreadable, decimal, exactly, find, skip};

// A rule to set, or an edge at a cycle.
#[derive(Clone, Copy)]
pub enum Asked {
    Rule(Rule),
    Edge(Cycle),
}

// Rule one, from the place after its name: its hold.
#[tactic(auto, unfolding(crate::specs::Asked::one_of, words::specs::Words::and_then))]
pub fn one(line: &[u8], at: usize) -> Result<Asked, Unreadable>
    ensures { result ≡ one_of line.now at }
{
    exactly(line, at, 1)?;
    let hold = decimal(line, at, u64::MAX)?;
    Ok(Asked::Rule(Rule::One { hold: hold.value }))
}

// Rule two, from the place after its name: its hold, its quiet time and its cap.
#[tactic(auto, unfolding(crate::specs::Asked::two_of, words::specs::Words::and_then))]
pub fn two(line: &[u8], at: usize) -> Result<Asked, Unreadable>
    ensures { result ≡ two_of line.now at }
{
    exactly(line, at, 3)?;
    let hold = decimal(line, at, u64::MAX)?;
    let quiet = decimal(line, hold.end, u64::MAX)?;
    let cap = decimal(line, quiet.end, u64::MAX)?;
    Ok(Asked::Rule(Rule::Two {
        hold: hold.value,
        quiet: quiet.value,
        cap: cap.value,
    }))
}

// An edge, from the place after its name: its cycle.
#[tactic(auto, unfolding(crate::specs::Asked::edge_of, words::specs::Words::and_then))]
pub fn edge(line: &[u8], at: usize) -> Result<Asked, Unreadable>
    ensures { result ≡ edge_of line.now at }
{
    exactly(line, at, 1)?;
    let cycle = decimal(line, at, u64::MAX)?;
    Ok(Asked::Edge(Cycle(cycle.value)))
}

// A name behind these three, from the place after it: its hold, as of rule two without a quiet time or a cap.
#[tactic(auto, unfolding(crate::specs::Asked::behind_of, words::specs::Words::and_then))]
fn behind(line: &[u8], at: usize) -> Result<Asked, Unreadable>
    ensures { result ≡ behind_of line.now at }
{
    exactly(line, at, 1)?;
    let hold = decimal(line, at, u64::MAX)?;
    Ok(Asked::Rule(Rule::Two {
        hold: hold.value,
        quiet: 0,
        cap: 0,
    }))
}

impl Asked {
    // What a line asks for by the place of its name among `one`, `two` and `edge`, from the place after it.
    #[tactic(auto, unfolding(crate::specs::Asked::placed_of))]
    pub fn placed(line: &[u8], at: usize, place: usize) -> Result<Asked, Unreadable>
        ensures { result ≡ placed_of line.now at place }
    {
        match place {
            0 => one(line, at),
            1 => two(line, at),
            2 => edge(line, at),
            _ => behind(line, at),
        }
    }

    // What a line asks for, from the place after `door`.
    #[tactic(auto, unfolding(crate::specs::Asked::asked_of, figures::specs::Figures::codes))]
    pub fn of(line: &[u8], at: usize) -> Result<Asked, Unreadable>
        ensures { result ≡ asked_of line.now at }
    {
        let start = skip(line, at);
        if start == line.len() {
            return Err(Unreadable::MissingWord);
        }
        let end = find(line, start, b' ');
        match &line[start..end] {
            b"one" => one(line, end),
            b"two" => two(line, end),
            b"edge" => edge(line, end),
            _ => Err(Unreadable::UnknownCommand),
        }
    }

    // The rule that a line sets; of an edge, rule two with its cycle as the hold.
    #[tactic(auto, unfolding(crate::specs::Asked::rule_of))]
    pub fn rule(self) -> Rule
        ensures { result ≡ rule_of self }
    {
        match self {
            Asked::Rule(rule) => rule,
            Asked::Edge(cycle) => Rule::Two {
                hold: cycle.0,
                quiet: 0,
                cap: 0,
            },
        }
    }
}
