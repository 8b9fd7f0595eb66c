// A door held by rule one or rule two.

ghost use Rattle.std.specs.Prelude.{◌≡◌};
ghost use Rattle.door.specs.declared.Rule.{Rule};
ghost use Rattle.door.specs.Door.{set_to, edged, due_values, Valid};
ghost use Rattle.doorlog.specs.Doors.{rule_of, terms_of, door_of, kept_of, told_of, made_of, taken_of};

use door::{Door, Hold, Rule};
use time::units::Cycle;

// C lays out the three structs that follow, so a rule, a hold and a refusal are flags and numbers in them.

// A rule in cycles. Rule one has a hold alone: its quiet and its cap are 0.
#[repr(C)]
#[derive(Clone, Copy)]
pub struct Terms {
    pub two: bool,
    pub hold: u64,
    pub quiet: u64,
    pub cap: u64,
}

// The rule, whether there is a hold, its first and its last rearming edge, when its close is due, and the latest accepted cycle.
#[repr(C)]
#[derive(Clone, Copy)]
pub struct Kept {
    pub terms: Terms,
    pub holding: bool,
    pub first: Cycle,
    pub rearmed: Cycle,
    pub due: Cycle,
    pub latest: Cycle,
}

// number is the refusal's, 0 for none. Where a close is pending it is due at that cycle, else due is 0. The door is to be kept.
#[repr(C)]
#[derive(Clone, Copy)]
pub struct Told {
    pub number: u8,
    pub pending: bool,
    pub due: u64,
    pub door: Kept,
}

// What is told of a hold where there is none.
const NO_HOLD: Hold = Hold {
    first: Cycle(0),
    rearmed: Cycle(0),
    due: Cycle(0),
};

// The door beside a refused rule: rule one with the shortest hold, and no edge.
const LEAST: Kept = Kept {
    terms: Terms {
        two: false,
        hold: 1,
        quiet: 0,
        cap: 0,
    },
    holding: false,
    first: Cycle(0),
    rearmed: Cycle(0),
    due: Cycle(0),
    latest: Cycle(0),
};

impl From<Terms> for Rule {
    ghost from_gives = { λ terms rule. rule ≡ rule_of terms };

    fn from(terms: Terms) -> Rule {
        if terms.two {
            Rule::Two {
                hold: terms.hold,
                quiet: terms.quiet,
                cap: terms.cap,
            }
        } else {
            Rule::One { hold: terms.hold }
        }
    }
}

impl From<Rule> for Terms {
    ghost from_gives = { λ rule terms. terms ≡ terms_of rule };

    fn from(rule: Rule) -> Terms {
        match rule {
            Rule::One { hold } => Terms {
                two: false,
                hold,
                quiet: 0,
                cap: 0,
            },
            Rule::Two { hold, quiet, cap } => Terms {
                two: true,
                hold,
                quiet,
                cap,
            },
        }
    }
}

impl From<Kept> for Door {
    ghost from_gives = { λ kept door. door ≡ door_of kept };

    fn from(kept: Kept) -> Door {
        let hold = Hold {
            first: kept.first,
            rearmed: kept.rearmed,
            due: kept.due,
        };
        Door {
            rule: Rule::from(kept.terms),
            hold: kept.holding.then_some(hold),
            latest: kept.latest,
        }
    }
}

impl From<Door> for Kept {
    ghost from_gives = { λ door kept. (kept ≡ kept_of door) × (door_of kept ≡ door) };

    fn from(door: Door) -> Kept {
        let hold = door.hold.unwrap_or(NO_HOLD);
        Kept {
            terms: Terms::from(door.rule),
            holding: door.hold.is_some(),
            first: hold.first,
            rearmed: hold.rearmed,
            due: hold.due,
            latest: door.latest,
        }
    }
}

impl Told {
    // A number and when a close is due, beside the door to be kept.
    fn new(number: u8, close: Option<Cycle>, door: Kept) -> Told
        ensures { result ≡ told_of number (due_values close) door }
    {
        Told {
            number,
            pending: close.is_some(),
            due: close.map_or(0, |cycle| cycle.0),
            door,
        }
    }
}

// Sets a rule, with no edge yet.
#[tactic(auto, unfolding(door::specs::Door::accepted))]
fn set(rule: Rule) -> Told
    ensures told { result ≡ made_of (set_to rule) }
    ensures valid { Valid (door_of result.door) }
{
    match Door::set(rule) {
        Ok(door) => Told::new(0, door.due(), Kept::from(door)),
        Err(refusal) => Told::new(refusal.number(), None, LEAST),
    }
}

// Sets rule one.
#[unsafe(no_mangle)]
pub extern "C" fn paddlemauve_door_one(hold: u64) -> Told
    ensures { (result ≡ made_of (set_to (Rule.One hold))) × Valid (door_of result.door) }
{
    set(Rule::One { hold })
}

// Sets rule two.
#[unsafe(no_mangle)]
pub extern "C" fn paddlemauve_door_two(hold: u64, quiet: u64, cap: u64) -> Told
    ensures { (result ≡ made_of (set_to (Rule.Two hold quiet cap))) × Valid (door_of result.door) }
{
    set(Rule::Two { hold, quiet, cap })
}

// Takes a contact edge. A refused one leaves the door as it was.
#[unsafe(no_mangle)]
pub extern "C" fn paddlemauve_door_edge(door: Kept, cycle: u64) -> Told
    requires { Valid (door_of door) }
    ensures told { result ≡ taken_of door (edged (door_of door) cycle) }
    ensures valid { Valid (door_of result.door) }
{
    let before = Door::from(door);
    match before.edge(Cycle(cycle)) {
        Ok(after) => Told::new(0, after.due(), Kept::from(after)),
        Err(refusal) => {
            let kept = Kept {
                terms: Terms::from(before.rule),
                ..door
            };
            Told::new(refusal.number(), before.due(), kept)
        }
    }
}
