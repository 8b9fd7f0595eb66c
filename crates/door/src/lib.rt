// Service rules for holding doors: contact edges by cycle, and when the close is due.

#![tactic(auto)]

ghost use Rattle.std.specs.Prelude.{◌≤◌, ◌<◌, ◌^◌, true, ◌≡◌, IfOk};
ghost use Rattle.door.specs.Door.{in_range, accepted, rearms, due_under, idle, held_from, edge_taken, refusal_number, set_to, on_time, edged, DueAnswers, Valid};

use time::units::Cycle;

// The longest hold, quiet time and cap, 2^40 cycles.
const LONGEST: u64 = 0x100_0000_0000;

// A service rule, in cycles. Under rule one every edge rearms; under rule two once `quiet` have passed, and up to `cap` from the first edge.
#[derive(Clone, Copy)]
pub enum Rule {
    One { hold: u64 },
    Two { hold: u64, quiet: u64, cap: u64 },
}

// A hold: its first and its last rearming edge, and when its close is due.
#[derive(Clone, Copy)]
pub struct Hold {
    pub first: Cycle,
    pub rearmed: Cycle,
    pub due: Cycle,
}

// The rule, the hold that the edges began, and the latest accepted cycle.
#[derive(Clone, Copy)]
pub struct Door {
    pub rule: Rule,
    pub hold: Option<Hold>,
    pub latest: Cycle,
}

// Why a rule or an edge is refused.
#[derive(Clone, Copy, PartialEq, Eq)]
pub enum Refusal {
    // The cycle is over 2^62 - 1.
    CycleTooLarge,
    // The cycle is below the latest accepted.
    CyclePassed,
    // A number of the rule is out of range, or its cap below its hold.
    Rule,
}

impl Refusal {
    // Its number in answers.
    pub fn number(self) -> u8
        ensures { result ≡ refusal_number self }
    {
        match self {
            Refusal::CycleTooLarge => 2,
            Refusal::CyclePassed => 3,
            Refusal::Rule => 22,
        }
    }
}

impl Rule {
    // Is every number in range, and the cap no shorter than the hold.
    #[tactic(auto, unfolding(crate::specs::Door::accepted))]
    fn accepted(self) -> bool
        ensures { result ≡ accepted self }
    {
        match self {
            Rule::One { hold } => in_range(hold),
            Rule::Two { hold, quiet, cap } => {
                in_range(hold) & in_range(quiet) & in_range(cap) & (hold <= cap)
            }
        }
    }

    // Does an edge rearm so many cycles after the last rearming one.
    #[tactic(auto, unfolding(crate::specs::Door::rearms))]
    fn rearms(self, since: u64) -> bool
        ensures { result ≡ rearms self since }
    {
        match self {
            Rule::One { .. } => true,
            Rule::Two { quiet, .. } => quiet <= since,
        }
    }

    // When the close of a hold is due, by its first and its last rearming edge.
    #[tactic(auto, unfolding(crate::specs::Door::accepted, crate::specs::Door::due_under))]
    fn due(self, first: Cycle, rearmed: Cycle) -> Cycle
        requires { (accepted self ≡ true) × (first.0 ≤ rearmed.0) × (rearmed.0 < 2 ^ 62) }
        ensures { result.0 ≡ due_under self first.0 rearmed.0 }
    {
        match self {
            Rule::One { hold } => Cycle(rearmed.0 + hold),
            Rule::Two { hold, cap, .. } => Cycle((rearmed.0 + hold).min(first.0 + cap)),
        }
    }
}

impl Door {
    // A door with no edge yet, at cycle 0, and nothing due.
    fn idle(rule: Rule) -> Door
        ensures { result ≡ idle rule }
    {
        Door {
            rule,
            hold: None,
            latest: Cycle(0),
        }
    }

    // A door held by its first edge and the one that rearms it now.
    fn held(rule: Rule, first: Cycle, rearmed: Cycle) -> Door
        requires { (accepted rule ≡ true) × (first.0 ≤ rearmed.0) × (rearmed.0 < 2 ^ 62) }
        ensures held { result ≡ held_from rule first.0 rearmed.0 }
        ensures valid { Valid result }
    {
        let due = rule.due(first, rearmed);
        Door {
            rule,
            hold: Some(Hold {
                first,
                rearmed,
                due,
            }),
            latest: rearmed,
        }
    }

    // Whether a cycle is too large, or below the latest accepted.
    #[tactic(auto, unfolding(crate::specs::Door::on_time))]
    fn on_time(self, cycle: Cycle) -> Result<(), Refusal>
        ensures { result ≡ on_time self cycle.0 }
    {
        match cycle.refusal(self.latest) {
            0 => Ok(()),
            2 => Err(Refusal::CycleTooLarge),
            _ => Err(Refusal::CyclePassed),
        }
    }

    // The door after an accepted edge.
    #[tactic(auto, unfolding(crate::specs::Door::edge_taken))]
    fn taken(self, cycle: Cycle) -> Door
        requires { Valid self × (self.latest.0 ≤ cycle.0) × (cycle.0 < 2 ^ 62) }
        ensures taken { result ≡ edge_taken self cycle.0 }
        ensures valid { Valid result }
    {
        let rule = self.rule;
        match self.hold {
            None => Door::held(rule, cycle, cycle),
            Some(hold) if hold.due.0 <= cycle.0 => Door::held(rule, cycle, cycle),
            Some(hold) if rule.rearms(cycle.0 - hold.rearmed.0) => {
                Door::held(rule, hold.first, cycle)
            }
            Some(_) => Door {
                latest: cycle,
                ..self
            },
        }
    }

    // Sets a rule: no edge, latest cycle 0 and nothing due.
    #[tactic(auto, unfolding(crate::specs::Door::set_to))]
    pub fn set(rule: Rule) -> Result<Door, Refusal>
        ensures set { result ≡ set_to rule }
        ensures valid { IfOk result Valid }
    {
        if !rule.accepted() {
            return Err(Refusal::Rule);
        }
        Ok(Door::idle(rule))
    }

    // The door after a contact edge. A refused one changes nothing: the caller keeps the door that it has.
    #[tactic(auto, unfolding(crate::specs::Door::edged, crate::specs::Door::on_time))]
    pub fn edge(self, cycle: Cycle) -> Result<Door, Refusal>
        requires { Valid self }
        ensures edged { result ≡ edged self cycle.0 }
        ensures valid { IfOk result Valid }
    {
        self.on_time(cycle)?;
        Ok(self.taken(cycle))
    }

    // When the close is due, where there is a hold.
    pub fn due(self) -> Option<Cycle>
        ensures { DueAnswers self result }
    {
        self.hold.map(|hold| hold.due)
    }
}

// Is a number of cycles above zero and not too long.
fn in_range(cycles: u64) -> bool
    ensures { result ≡ in_range cycles }
{
    (0 < cycles) && (cycles <= LONGEST)
}
