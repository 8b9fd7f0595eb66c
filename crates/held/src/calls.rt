// A call's outcome, held.

ghost use Rattle.counter.specs.Valid.{Valid};
ghost use Rattle.held.specs.Reply.{Holds};

use crate::reply::Reply;
use crate::state::{Held, held_of};
use answers::Outcome;

// The held timer after a call, and the reply.
#[derive(Clone, Copy)]
pub struct Called {
    pub held: Held,
    pub reply: Reply,
}

// An outcome's timer held, and its answer in numbers.
pub fn holding(o: Outcome) -> Called
    requires { Valid o.timer }
    ensures { Holds o result }
{
    let t = o.timer;
    let held = held_of(t);
    Called {
        held,
        reply: Reply::of(o, held.next, held.flags),
    }
}
