// A call as a line asks for it.

ghost use Rattle.std.specs.Prelude.{◌≤◌, ◌≡◌, IfOk};
ghost use Rattle.timer_lines.specs.Asked.{name_at, kinds_of, word_of, call_of, asked_of};

use timer::calls::Call;
use words::{Taken, Unreadable, decimal, exactly, hexadecimal, low8, low16};

// The calls by their names; beyond them an edge without its level, which is 0: its word is counted, but not read.
#[derive(Clone, Copy)]
pub enum Name {
    Advance,
    Next,
    Reset,
    Wake,
    Tifr,
    Timsk,
    Read,
    Peek,
    Prr,
    Wtifr,
    Wtimsk,
    Presc,
    Route,
    Acout,
    Sleep,
    Tsm,
    Write,
    Edge,
    Beyond,
}

// What a word of a call is: a decimal or a hexadecimal byte, or sixteen bits, which are an address or PRR1:PRR0; one that is not read is counted alone.
#[derive(Clone, Copy)]
enum Kind {
    Decimal,
    Hexadecimal,
    Sixteen,
    Unread,
}

// A call with its cycle and the area's size.
#[derive(Clone, Copy)]
pub struct Asked {
    pub call: Call,
    pub cycle: u64,
    pub size: usize,
}

impl Name {
    // The call of a place among the names, in their order.
    #[tactic(auto, unfolding(crate::specs::Asked::name_at))]
    pub fn at(place: usize) -> Name
        ensures { result ≡ name_at place }
    {
        match place {
            0 => Name::Advance,
            1 => Name::Next,
            2 => Name::Reset,
            3 => Name::Wake,
            4 => Name::Tifr,
            5 => Name::Timsk,
            6 => Name::Read,
            7 => Name::Peek,
            8 => Name::Prr,
            9 => Name::Wtifr,
            10 => Name::Wtimsk,
            11 => Name::Presc,
            12 => Name::Route,
            13 => Name::Acout,
            14 => Name::Sleep,
            15 => Name::Tsm,
            16 => Name::Write,
            17 => Name::Edge,
            _ => Name::Beyond,
        }
    }
}

// The words that a call has before its cycle and its size.
#[tactic(auto, unfolding(crate::specs::Asked::kinds_of))]
fn kinds(name: Name) -> (Option<Kind>, Option<Kind>)
    ensures { result ≡ kinds_of name }
{
    match name {
        Name::Advance | Name::Next | Name::Reset | Name::Wake | Name::Tifr | Name::Timsk => {
            (None, None)
        }
        Name::Read | Name::Peek | Name::Prr => (Some(Kind::Sixteen), None),
        Name::Wtifr | Name::Wtimsk | Name::Presc => (Some(Kind::Hexadecimal), None),
        Name::Route | Name::Acout | Name::Sleep | Name::Tsm => (Some(Kind::Decimal), None),
        Name::Write => (Some(Kind::Sixteen), Some(Kind::Hexadecimal)),
        Name::Edge => (Some(Kind::Decimal), Some(Kind::Decimal)),
        Name::Beyond => (Some(Kind::Decimal), Some(Kind::Unread)),
    }
}

// The next word, of a kind; where there is none, or it is not read, it is a 0 that takes no word.
#[tactic(auto, unfolding(crate::specs::Asked::word_of))]
fn word(line: &[u8], at: usize, kind: Option<Kind>) -> Result<Taken, Unreadable>
    ensures { result ≡ word_of line.now at kind }
{
    match kind {
        Some(Kind::Decimal) => decimal(line, at, 0xff),
        Some(Kind::Hexadecimal) => hexadecimal(line, at, 0xff),
        Some(Kind::Sixteen) => hexadecimal(line, at, 0xffff),
        Some(Kind::Unread) => Ok(Taken { value: 0, end: at }),
        None => Ok(Taken { value: 0, end: at }),
    }
}

// The call of a name, with its words.
#[tactic(auto, unfolding(crate::specs::Asked::call_of))]
fn call_of(name: Name, a: u64, b: u64) -> Call
    ensures { result ≡ call_of name a b }
{
    match name {
        Name::Advance => Call::Advance,
        Name::Next => Call::Next,
        Name::Reset => Call::Reset,
        Name::Wake => Call::Wake,
        Name::Tifr => Call::Tifr,
        Name::Timsk => Call::Timsk,
        Name::Read => Call::Read(low16(a)),
        Name::Peek => Call::Peek(low16(a)),
        Name::Prr => Call::Reduce(low16(a)),
        Name::Wtifr => Call::WriteTifr(low8(a)),
        Name::Wtimsk => Call::WriteTimsk(low8(a)),
        Name::Presc => Call::Prescale(low8(a)),
        Name::Route => Call::Route(low8(a)),
        Name::Acout => Call::Output(low8(a)),
        Name::Sleep => Call::Sleep(low8(a)),
        Name::Tsm => Call::Tsm(low8(a)),
        Name::Write => Call::Write(low16(a), low8(b)),
        Name::Edge | Name::Beyond => Call::Edge(low8(a), low8(b)),
    }
}

impl Asked {
    // What follows the name of a call; the words are counted first.
    #[tactic(auto, unfolding(crate::specs::Asked::asked_of, words::specs::Words::and_then))]
    pub fn of(line: &[u8], at: usize, name: Name) -> Result<Asked, Unreadable>
        ensures { IfOk result (λ q. q.size ≤ 4096) × (result ≡ asked_of line.now at name) }
    {
        let (first, second) = kinds(name);
        let before = first.is_some() as usize + second.is_some() as usize;
        exactly(line, at, before + 2)?;
        let a = word(line, at, first)?;
        let b = word(line, a.end, second)?;
        let cycle = decimal(line, b.end, u64::MAX)?;
        let size = decimal(line, cycle.end, 4096)?;
        Ok(Asked {
            call: call_of(name, a.value, b.value),
            cycle: cycle.value,
            size: size.value as usize,
        })
    }
}
