// What a watchdog's line asks for.

ghost use Rattle.std.specs.Prelude.{◌≤◌, ◌≡◌, IfOk};
ghost use Rattle.wdt_lines.specs.Asked.{command_of, plain_of, advance_of, write_of, alone_of, asked_of, placed_of, line_of, Sized};

use watchdog::calls::Call;
use words::{Unreadable, decimal, exactly, find, hexadecimal, low8, place, skip};

// The commands: the calls, then `new` and `state`.
#[derive(Clone, Copy, PartialEq, Eq)]
pub enum Command {
    Advance,
    Write,
    Next,
    Wdr,
    Serve,
    Read,
    New,
    State,
}

// A new watchdog, the watchdog as it stands, or a call with its cycle and the area's size.
#[derive(Clone, Copy)]
pub enum Asked {
    New,
    State,
    Call { call: Call, cycle: u64, size: usize },
}

// The command of a place among the names; behind them it is `state`, where `Asked::placed` has a read.
#[tactic(auto, unfolding(crate::specs::Asked::command_of))]
pub fn command_at(place: usize) -> Command
    ensures { result ≡ command_of place }
{
    match place {
        0 => Command::Advance,
        1 => Command::Write,
        2 => Command::Next,
        3 => Command::Wdr,
        4 => Command::Serve,
        5 => Command::Read,
        6 => Command::New,
        _ => Command::State,
    }
}

// A call that has a cycle alone.
#[tactic(auto, unfolding(crate::specs::Asked::plain_of, words::specs::Words::and_then))]
fn plain(line: &[u8], at: usize, call: Call) -> Result<Asked, Unreadable>
    ensures { (IfOk result Sized) × (result ≡ plain_of line.now at call) }
{
    exactly(line, at, 1)?;
    let cycle = decimal(line, at, u64::MAX)?;
    Ok(Asked::Call {
        call,
        cycle: cycle.value,
        size: 0,
    })
}

// An advance, the one call that has an area.
#[tactic(auto, unfolding(crate::specs::Asked::advance_of, words::specs::Words::and_then))]
fn advance(line: &[u8], at: usize) -> Result<Asked, Unreadable>
    ensures { (IfOk result Sized) × (result ≡ advance_of line.now at) }
{
    exactly(line, at, 2)?;
    let cycle = decimal(line, at, u64::MAX)?;
    let size = decimal(line, cycle.end, 4096)?;
    Ok(Asked::Call {
        call: Call::Advance,
        cycle: cycle.value,
        size: size.value as usize,
    })
}

// A write of WDTCSR.
#[tactic(auto, unfolding(crate::specs::Asked::write_of, words::specs::Words::and_then))]
fn write(line: &[u8], at: usize) -> Result<Asked, Unreadable>
    ensures { (IfOk result Sized) × (result ≡ write_of line.now at) }
{
    exactly(line, at, 2)?;
    let value = hexadecimal(line, at, 0xff)?;
    let cycle = decimal(line, value.end, u64::MAX)?;
    Ok(Asked::Call {
        call: Call::Write(low8(value.value)),
        cycle: cycle.value,
        size: 0,
    })
}

// A command without words.
#[tactic(auto, unfolding(crate::specs::Asked::alone_of, words::specs::Words::and_then))]
fn alone(line: &[u8], at: usize, asked: Asked) -> Result<Asked, Unreadable>
    requires { Sized asked }
    ensures { (IfOk result Sized) × (result ≡ alone_of line.now at asked) }
{
    exactly(line, at, 0)?;
    Ok(asked)
}

// What follows a command, from the place after its name.
#[tactic(auto, unfolding(crate::specs::Asked::asked_of))]
pub fn following(line: &[u8], at: usize, command: Command) -> Result<Asked, Unreadable>
    ensures { (IfOk result Sized) × (result ≡ asked_of line.now at command) }
{
    match command {
        Command::Advance => advance(line, at),
        Command::Write => write(line, at),
        Command::Next => plain(line, at, Call::Next),
        Command::Wdr => plain(line, at, Call::Wdr),
        Command::Serve => plain(line, at, Call::Serve),
        Command::Read => plain(line, at, Call::Read),
        Command::New => alone(line, at, Asked::New),
        Command::State => alone(line, at, Asked::State),
    }
}

impl Asked {
    // What a line asks for by the place of its name among the commands, from the place after it; behind them it has no words, and reads WDTCSR at cycle 0.
    #[tactic(auto, unfolding(crate::specs::Asked::placed_of))]
    pub fn placed(line: &[u8], at: usize, place: usize) -> Result<Asked, Unreadable>
        ensures { (IfOk result Sized) × (result ≡ placed_of line.now at place) }
    {
        if place < 8 {
            return following(line, at, command_at(place));
        }
        alone(
            line,
            at,
            Asked::Call {
                call: Call::Read,
                cycle: 0,
                size: 0,
            },
        )
    }

    // What a line asks for, from the place after `wdt`.
    #[tactic(auto, unfolding(crate::specs::Asked::line_of, crate::specs::Asked::named_of, figures::specs::Figures::codes))]
    pub fn of(line: &[u8], at: usize) -> Result<Asked, Unreadable>
        ensures { (IfOk result Sized) × (result ≡ line_of line.now at) }
    {
        let start = skip(line, at);
        if start == line.len() {
            return Err(Unreadable::MissingWord);
        }
        let end = find(line, start, b' ');
        match place(
            b"advance write next wdr serve read new state",
            &line[start..end],
        ) {
            Some(n) => following(line, end, command_at(n)),
            None => Err(Unreadable::UnknownCommand),
        }
    }
}
