// What a line asks of the board.

ghost use Rattle.std.specs.Prelude.{◌≤◌, ◌≡◌, IfOk};
ghost use Rattle.board_lines.specs.Asked.{named_of, kinds_of, word_of, id_of, order_of, call_of, asked_of, size_of};

use aims::Order;
use m328p::Id;
use words::{Taken, Unreadable, decimal, exactly, find, hexadecimal, low8, low16, skip};

// A fresh board, the board shown, or an order with its cycle and the size of each area.
#[derive(Clone, Copy)]
pub enum Asked {
    New,
    State,
    Call {
        order: Order,
        cycle: u64,
        size: usize,
    },
}

// The orders by their names.
#[derive(Clone, Copy)]
enum Name {
    Advance,
    Next,
    Reset,
    Tifr,
    Timsk,
    Edge,
    Route,
    Acout,
    Wtifr,
    Wtimsk,
    Write,
    Read,
    Peek,
    Sleep,
    Prr,
    Wake,
}

// What a word of an order is: a timer's id, a decimal or a hexadecimal byte, or an address.
#[derive(Clone, Copy)]
enum Kind {
    Timer,
    Decimal,
    Hexadecimal,
    Address,
}

// The order of a name.
#[tactic(auto, unfolding(crate::specs::Asked::named_of, figures::specs::Figures::codes))]
fn named(word: &[u8]) -> Option<Name>
    ensures { result ≡ named_of word.now }
{
    let name = match word {
        b"advance" => Name::Advance,
        b"next" => Name::Next,
        b"reset" => Name::Reset,
        b"tifr" => Name::Tifr,
        b"timsk" => Name::Timsk,
        b"edge" => Name::Edge,
        b"route" => Name::Route,
        b"acout" => Name::Acout,
        b"wtifr" => Name::Wtifr,
        b"wtimsk" => Name::Wtimsk,
        b"write" => Name::Write,
        b"read" => Name::Read,
        b"peek" => Name::Peek,
        b"sleep" => Name::Sleep,
        b"prr" => Name::Prr,
        b"wake" => Name::Wake,
        _ => return None,
    };
    Some(name)
}

// The words that an order has before its cycle and its size.
#[tactic(auto, unfolding(crate::specs::Asked::kinds_of))]
fn kinds(name: Name) -> (Option<Kind>, Option<Kind>, Option<Kind>)
    ensures { result ≡ kinds_of name }
{
    match name {
        Name::Advance | Name::Next | Name::Reset | Name::Tifr | Name::Timsk => {
            (Some(Kind::Timer), None, None)
        }
        Name::Edge => (Some(Kind::Timer), Some(Kind::Decimal), Some(Kind::Decimal)),
        Name::Route | Name::Acout => (Some(Kind::Timer), Some(Kind::Decimal), None),
        Name::Wtifr | Name::Wtimsk => (Some(Kind::Timer), Some(Kind::Hexadecimal), None),
        Name::Write => (Some(Kind::Address), Some(Kind::Hexadecimal), None),
        Name::Read | Name::Peek => (Some(Kind::Address), None, None),
        Name::Sleep => (Some(Kind::Decimal), None, None),
        Name::Prr => (Some(Kind::Hexadecimal), None, None),
        Name::Wake => (None, None, None),
    }
}

// The next word, of a kind; where there is none it is a 0 that takes no word.
#[tactic(auto, unfolding(crate::specs::Asked::word_of))]
fn word(line: &[u8], at: usize, kind: Option<Kind>) -> Result<Taken, Unreadable>
    ensures { result ≡ word_of line.now at kind }
{
    match kind {
        Some(Kind::Timer) => decimal(line, at, 2),
        Some(Kind::Decimal) => decimal(line, at, 0xff),
        Some(Kind::Hexadecimal) => hexadecimal(line, at, 0xff),
        Some(Kind::Address) => hexadecimal(line, at, 0xffff),
        None => Ok(Taken { value: 0, end: at }),
    }
}

// The id of a number.
#[tactic(auto, unfolding(crate::specs::Asked::id_of))]
fn id_of(n: u64) -> Id
    ensures { result ≡ id_of n }
{
    match n {
        0 => Id::Zero,
        1 => Id::One,
        _ => Id::Two,
    }
}

// The order of a name, with its words.
#[tactic(auto, unfolding(crate::specs::Asked::order_of))]
fn order_of(name: Name, a: u64, b: u64, c: u64) -> Order
    ensures { result ≡ order_of name a b c }
{
    match name {
        Name::Advance => Order::Advance(id_of(a)),
        Name::Next => Order::Next(id_of(a)),
        Name::Reset => Order::Reset(id_of(a)),
        Name::Tifr => Order::Tifr(id_of(a)),
        Name::Timsk => Order::Timsk(id_of(a)),
        Name::Edge => Order::Edge(id_of(a), low8(b), low8(c)),
        Name::Route => Order::Route(id_of(a), low8(b)),
        Name::Acout => Order::Output(id_of(a), low8(b)),
        Name::Wtifr => Order::WriteTifr(id_of(a), low8(b)),
        Name::Wtimsk => Order::WriteTimsk(id_of(a), low8(b)),
        Name::Write => Order::Write(low16(a), low8(b)),
        Name::Read => Order::Read(low16(a)),
        Name::Peek => Order::Peek(low16(a)),
        Name::Sleep => Order::Sleep(low8(a)),
        Name::Prr => Order::Reduce(low8(a)),
        Name::Wake => Order::Wake,
    }
}

// Reads the words of an order, which are counted first.
#[tactic(auto, unfolding(crate::specs::Asked::call_of, words::specs::Words::and_then))]
fn call(line: &[u8], at: usize, name: Name) -> Result<Asked, Unreadable>
    ensures { IfOk result (λ q. size_of q ≤ 4096) × (result ≡ call_of line.now at name) }
{
    let (first, second, third) = kinds(name);
    let before = first.is_some() as usize + second.is_some() as usize + third.is_some() as usize;
    exactly(line, at, before + 2)?;
    let a = word(line, at, first)?;
    let b = word(line, a.end, second)?;
    let c = word(line, b.end, third)?;
    let cycle = decimal(line, c.end, u64::MAX)?;
    let size = decimal(line, cycle.end, 4096)?;
    Ok(Asked::Call {
        order: order_of(name, a.value, b.value, c.value),
        cycle: cycle.value,
        size: size.value as usize,
    })
}

impl Asked {
    // What a line asks for, from a place on.
    #[tactic(auto, unfolding(crate::specs::Asked::asked_of, words::specs::Words::and_then, figures::specs::Figures::codes))]
    pub fn of(line: &[u8], at: usize) -> Result<Asked, Unreadable>
        ensures { IfOk result (λ q. size_of q ≤ 4096) × (result ≡ asked_of line.now at) }
    {
        let start = skip(line, at);
        if start == line.len() {
            return Err(Unreadable::MissingWord);
        }
        let end = find(line, start, b' ');
        let name = &line[start..end];
        if name == b"new".as_slice() {
            exactly(line, end, 0)?;
            return Ok(Asked::New);
        }
        if name == b"state".as_slice() {
            exactly(line, end, 0)?;
            return Ok(Asked::State);
        }
        let name = named(name).ok_or(Unreadable::UnknownCommand)?;
        call(line, end, name)
    }
}
