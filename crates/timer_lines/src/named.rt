// The timer's lines by their first word.

ghost use Rattle.std.specs.Prelude.{◌≤◌, ◌≡◌, length, IfSome};
ghost use Rattle.counter.specs.Valid.{Valid};
ghost use Rattle.timer_lines.specs.Called.{Leaves};
ghost use Rattle.timer_lines.specs.Named.{command_at, call_named, named_of, timer_line};

use crate::asked::Name;
use crate::called::{Left, call_line};
use crate::shifted::shift_line;
use crate::shown::state_line;
use counter::state::Timer;
use page::Page;

// What a line does with the timer: it calls it, or shows something of it.
#[derive(Clone, Copy)]
pub enum Command {
    Call(Name),
    State,
    Distance,
    Shift,
}

impl Command {
    // The command of a place among the names: the calls, then `state`, `distance` and `shift`; behind them it is `state`.
    #[tactic(auto, unfolding(crate::specs::Named::command_at))]
    pub fn at(place: usize) -> Command
        ensures { result ≡ command_at place }
    {
        if place < 18 {
            return Command::Call(Name::at(place));
        }
        match place {
            19 => Command::Distance,
            20 => Command::Shift,
            _ => Command::State,
        }
    }
}

// The call of a line's first word.
#[tactic(auto, unfolding(crate::specs::Named::call_named, figures::specs::Figures::codes))]
fn call_named(word: &[u8]) -> Option<Name>
    ensures { result ≡ call_named word.now }
{
    let name = match word {
        b"advance" => Name::Advance,
        b"next" => Name::Next,
        b"reset" => Name::Reset,
        b"wake" => Name::Wake,
        b"tifr" => Name::Tifr,
        b"timsk" => Name::Timsk,
        b"read" => Name::Read,
        b"peek" => Name::Peek,
        b"prr" => Name::Prr,
        b"wtifr" => Name::Wtifr,
        b"wtimsk" => Name::Wtimsk,
        b"presc" => Name::Presc,
        b"route" => Name::Route,
        b"acout" => Name::Acout,
        b"sleep" => Name::Sleep,
        b"tsm" => Name::Tsm,
        b"write" => Name::Write,
        b"edge" => Name::Edge,
        _ => return None,
    };
    Some(name)
}

// The command of a line's first word.
#[tactic(auto, unfolding(crate::specs::Named::named_of, figures::specs::Figures::codes))]
pub fn named(word: &[u8]) -> Option<Command>
    ensures { result ≡ named_of word.now }
{
    match word {
        b"state" => Some(Command::State),
        b"distance" => Some(Command::Distance),
        b"shift" => Some(Command::Shift),
        _ => call_named(word).map(Command::Call),
    }
}

// Answers a timer's line from the place after its name.
#[tactic(auto, unfolding(crate::specs::Named::timer_line))]
pub fn timer_line(
    t: Option<Timer>,
    page: &mut Page,
    nth: u64,
    line: &[u8],
    at: usize,
    command: Command,
    area: &mut [u8],
) -> Left
    requires { (IfSome t Valid) × (4096 ≤ length area.old) }
    ensures { Leaves (timer_line t nth line.now at command area.old) page.old page.new area.new result }
{
    match command {
        Command::Call(name) => return call_line(t, page, nth, line, at, name, area),
        Command::State => state_line(t, page, nth, line, at, false),
        Command::Distance => state_line(t, page, nth, line, at, true),
        Command::Shift => shift_line(t, page, nth, line, at),
    }
    Left {
        timer: t,
        written: 0,
    }
}
