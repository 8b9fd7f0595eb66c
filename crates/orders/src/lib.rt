// An order to the board and its answer in numbers, by value, for Rust and C.

#![tactic(auto)]

ghost use Rattle.std.specs.Prelude.{◌≡◌};
ghost use Rattle.counter.specs.Valid.{Valid as Running};
ghost use Rattle.answers.specs.Answers.{values_of};
ghost use Rattle.held.specs.Reply.{beside};
ghost use Rattle.board.specs.State.{Valid};
ghost use Rattle.board.specs.Calls.{areas_of, Tells};
ghost use Rattle.orders.specs.Orders.{orders, meant_at, order_of, flags_of, standing_of, moved_of, told_to, Obeys};

use aims::Order;
use answers::{Answer, Outcome};
use board::state::Board;
use board::{call, refused};
use counter::next::Next;
use counter::state::Timer;
use held::reply::Reply;
use held::state::NEVER;
use m328p::Id;
use time::units::Cycle;

// kind is the order's place in `aims::Order`, from 0 on, and id a timer's, 0 to 2; of the other arguments it takes those that it has.
#[repr(C)]
#[derive(Clone, Copy)]
pub struct Ordered {
    pub kind: u8,
    pub id: u8,
    pub pin: u8,
    pub value: u8,
    pub address: u16,
    pub cycle: u64,
}

// Of a timer of the board, as a timer's reply has them: the bytes that the order wrote in its area, and its next event.
#[repr(C)]
#[derive(Clone, Copy)]
pub struct Standing {
    pub flags: u8,
    pub written: u64,
    pub next: u64,
}

// number, what and value are those of a timer's reply, and so are flags, where the answer has some.
#[repr(C)]
#[derive(Clone, Copy)]
pub struct Replied {
    pub number: u8,
    pub what: u8,
    pub flags: u8,
    pub value: u64,
    pub zero: Standing,
    pub one: Standing,
    pub two: Standing,
}

// The board after an order, and the reply.
#[derive(Clone, Copy)]
pub struct Moved {
    pub board: Board,
    pub reply: Replied,
}

// The order that the numbers name, if they name one.
#[derive(Clone, Copy)]
pub enum Meant {
    Known(Order),
    Unknown,
}

impl Ordered {
    // Yields the order, to a timer or with its id passed over.
    fn to(self, id: Id) -> Meant
        ensures { result ≡ meant_at (orders id self) self.kind }
    {
        let kind = self.kind;
        match kind {
            0 => Meant::Known(Order::Advance(id)),
            1 => Meant::Known(Order::Next(id)),
            2 => Meant::Known(Order::Reset(id)),
            3 => Meant::Known(Order::Edge(id, self.pin, self.value)),
            4 => Meant::Known(Order::Route(id, self.value)),
            5 => Meant::Known(Order::Output(id, self.value)),
            6 => Meant::Known(Order::Read(self.address)),
            7 => Meant::Known(Order::Peek(self.address)),
            8 => Meant::Known(Order::Write(self.address, self.value)),
            9 => Meant::Known(Order::Sleep(self.value)),
            10 => Meant::Known(Order::Wake),
            11 => Meant::Known(Order::Reduce(self.value)),
            12 => Meant::Known(Order::Tifr(id)),
            13 => Meant::Known(Order::Timsk(id)),
            14 => Meant::Known(Order::WriteTifr(id, self.value)),
            15 => Meant::Known(Order::WriteTimsk(id, self.value)),
            16..=255 => Meant::Unknown,
        }
    }

    // Yields the order.
    pub fn order(self) -> Meant
        ensures { result ≡ order_of self }
    {
        let id = self.id;
        match id {
            0 => self.to(Id::Zero),
            1 => self.to(Id::One),
            2 => self.to(Id::Two),
            3..=255 => Meant::Unknown,
        }
    }
}

// Yields what a reply to an answer tells of a timer.
fn stood(answer: Answer, t: Timer, written: usize, next: u64, flags: u8) -> Standing
    ensures { result ≡ record { flags = beside (values_of answer) flags; written = written; next = beside (values_of answer) next } }
{
    let r = Reply::of(
        Outcome {
            answer,
            timer: t,
            written,
        },
        next,
        flags,
    );
    Standing {
        flags: r.flags,
        written: r.written,
        next: r.next,
    }
}

// Yields a timer's next event, where the order is accepted, and the bytes written in its area.
fn told_of(answer: Answer, t: Timer, written: usize) -> Standing
    requires { Running t }
    ensures { result ≡ standing_of (values_of answer) t written }
{
    let next = t.next();
    match next {
        Next::At(c, f) => stood(answer, t, written, c.0, f),
        Next::Never => stood(answer, t, written, NEVER, 0),
    }
}

// Yields an answer's flags, 0 where it has none.
fn flags_of(answer: Answer) -> u8
    ensures { result ≡ flags_of (values_of answer) }
{
    match answer {
        Answer::Refused(n) => 0,
        Answer::Done => 0,
        Answer::Value(v) => 0,
        Answer::Next(n) => match n {
            Next::At(c, f) => f,
            Next::Never => 0,
        },
        Answer::Reached(f) => f,
        Answer::Paused(c, f) => f,
    }
}

// Yields an outcome's board, and its answer in numbers.
fn numbered(o: board::outcome::Outcome) -> Moved
    requires { Valid o.board }
    ensures { result ≡ moved_of o }
{
    let answer = o.answer;
    let board = o.board;
    let written = o.written;
    let timer = board.zero;
    let zero = told_of(answer, timer, written.zero);
    let one = told_of(answer, board.one, written.one);
    let two = told_of(answer, board.two, written.two);
    let r = Reply::of(
        Outcome {
            answer,
            timer,
            written: 0,
        },
        0,
        0,
    );
    let reply = Replied {
        number: r.number,
        what: r.what,
        flags: flags_of(answer),
        value: r.value,
        zero,
        one,
        two,
    };
    Moved { board, reply }
}

// Any order, by its numbers.
fn any(
    b: Board,
    asked: Ordered,
    zero: &mut [u8],
    one: &mut [u8],
    two: &mut [u8],
) -> board::outcome::Outcome
    requires { Valid b }
    ensures { Tells (told_to b (order_of asked) asked.cycle (areas_of zero.old one.old two.old)) result zero.new one.new two.new }
{
    let meant = asked.order();
    match meant {
        Meant::Known(o) => call(b, o, Cycle(asked.cycle), zero, one, two),
        Meant::Unknown => refused(b, 255),
    }
}

// An order by value: its numbers become the order, and its answer numbers.
pub fn step(b: Board, asked: Ordered, zero: &mut [u8], one: &mut [u8], two: &mut [u8]) -> Moved
    requires { Valid b }
    ensures { Obeys (told_to b (order_of asked) asked.cycle (areas_of zero.old one.old two.old)) result.board result.reply zero.new one.new two.new }
{
    numbered(any(b, asked, zero, one, two))
}
