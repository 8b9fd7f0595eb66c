// The ATmega328P board: whoever calls, with anything, gets the result or one numbered refusal.

#![tactic(auto)]

pub mod outcome;
pub mod state;

ghost use Rattle.std.specs.Prelude.{◌≡◌};
ghost use Rattle.passage.specs.Passage.{ticks};
ghost use Rattle.counter.specs.Valid.{Valid as Running};
ghost use Rattle.aims.specs.declared.Aim.{Aim as Goal};
ghost use Rattle.board.specs.State.{Valid};
ghost use Rattle.board.specs.Calls.{nothing, areas_of, Took, told, aimed, Tells};

use crate::outcome::{Outcome, Written};
use crate::state::Board;
use aims::{Aim, Cast, Order, aimed};
use answers::Answer;
use casts::{lowest, number, reach};
use m328p::Id;
use time::units::Cycle;
use timer::calls::Call;

// An order turned away: the board is as it was.
pub fn refused(b: Board, number: u8) -> Outcome
    ensures { result ≡ record { answer = Answer.Refused number; board = b; written = nothing } }
{
    Outcome {
        answer: Answer::Refused(number),
        board: b,
        written: Written::nothing(),
    }
}

// Keeps what a timer's own call leaves, where it is accepted.
fn took(b: Board, id: Id, o: answers::Outcome) -> Outcome
    requires { (Valid b) × Running o.timer }
    ensures { Took b id o result }
{
    let answer = o.answer;
    let written = Written::of(id, o.written);
    if number(answer) != 0 {
        return Outcome {
            answer,
            board: b,
            written,
        };
    }
    let t = o.timer;
    let board = b.with(id, t);
    Outcome {
        answer,
        board,
        written,
    }
}

// A call of one timer, in its own area.
fn own(
    b: Board,
    id: Id,
    call: Call,
    cycle: Cycle,
    zero: &mut [u8],
    one: &mut [u8],
    two: &mut [u8],
) -> Outcome
    requires { Valid b }
    ensures { Tells (aimed ticks b (Goal.Own id call) cycle.0 (areas_of zero.old one.old two.old)) result zero.new one.new two.new }
{
    match id {
        Id::Zero => took(b, id, dispatch::call(b.zero, call, cycle, zero)),
        Id::One => took(b, id, dispatch::call(b.one, call, cycle, one)),
        Id::Two => took(b, id, dispatch::call(b.two, call, cycle, two)),
    }
}

// What reaches all three, each in its own area: refused with the lowest number if one refuses, and then none is changed.
fn all(
    b: Board,
    cast: Cast,
    gtccr: u8,
    cycle: Cycle,
    zero: &mut [u8],
    one: &mut [u8],
    two: &mut [u8],
) -> Outcome
    requires { Valid b }
    ensures { Tells (aimed ticks b (Goal.All cast gtccr) cycle.0 (areas_of zero.old one.old two.old)) result zero.new one.new two.new }
{
    let x = reach(b.zero, cast, cycle, zero);
    let y = reach(b.one, cast, cycle, one);
    let z = reach(b.two, cast, cycle, two);
    let first = x.answer;
    let second = y.answer;
    let third = z.answer;
    let n = lowest(number(first), lowest(number(second), number(third)));
    if n != 0 {
        return refused(b, n);
    }
    let written = Written {
        zero: x.written,
        one: y.written,
        two: z.written,
    };
    let board = b.with_all(x.timer, y.timer, z.timer, gtccr);
    Outcome {
        answer: Answer::Done,
        board,
        written,
    }
}

// An order to the board, with an area for each timer.
pub fn call(
    b: Board,
    order: Order,
    cycle: Cycle,
    zero: &mut [u8],
    one: &mut [u8],
    two: &mut [u8],
) -> Outcome
    requires { Valid b }
    ensures { Tells (told ticks b order cycle.0 (areas_of zero.old one.old two.old)) result zero.new one.new two.new }
{
    let aim = aimed(order, b.gtccr);
    match aim {
        Aim::Nowhere => refused(b, 16),
        Aim::Shown => Outcome {
            answer: Answer::Value(b.gtccr),
            board: b,
            written: Written::nothing(),
        },
        Aim::Own(id, c) => own(b, id, c, cycle, zero, one, two),
        Aim::All(cast, gtccr) => all(b, cast, gtccr, cycle, zero, one, two),
    }
}
