// What a log's line asks for.

ghost use Rattle.std.specs.Prelude.{◌≡◌, IfOk};
ghost use Rattle.log_lines.specs.Asked.{add_of, release_of, read_of, asked_of, Placed};

use digits::Bytes;
use words::{Unreadable, decimal, exactly, find, skip};

// A record to add, as many of the oldest as are to be released, or a place to read.
#[derive(Clone, Copy)]
pub enum Asked {
    Add([u8; 10]),
    Release(usize),
    Read(usize),
}

// A record, of which fewer than ten bytes are malformed.
#[tactic(auto, unfolding(crate::specs::Asked::add_of, words::specs::Words::and_then))]
fn add(line: &[u8], at: usize) -> Result<Asked, Unreadable>
    ensures { IfOk result Placed × (result ≡ add_of line.now at) }
{
    exactly(line, at, 1)?;
    let record = Bytes::<10>::of(line, at)?;
    let Ok(bytes) = <[u8; 10]>::try_from(record.as_slice()) else {
        return Err(Unreadable::Malformed);
    };
    Ok(Asked::Add(bytes))
}

// How many records.
#[tactic(auto, unfolding(crate::specs::Asked::release_of, words::specs::Words::and_then))]
fn release(line: &[u8], at: usize) -> Result<Asked, Unreadable>
    ensures { IfOk result Placed × (result ≡ release_of line.now at) }
{
    exactly(line, at, 1)?;
    let count = decimal(line, at, u64::MAX)?;
    Ok(Asked::Release(count.value as usize))
}

// A place of the log.
#[tactic(auto, unfolding(crate::specs::Asked::read_of, words::specs::Words::and_then))]
fn read(line: &[u8], at: usize) -> Result<Asked, Unreadable>
    ensures { IfOk result Placed × (result ≡ read_of line.now at) }
{
    exactly(line, at, 1)?;
    let place = decimal(line, at, 5999)?;
    Ok(Asked::Read(place.value as usize))
}

impl Asked {
    // What a line asks for, from the place after `log`.
    #[tactic(auto, unfolding(crate::specs::Asked::asked_of, figures::specs::Figures::codes))]
    pub fn of(line: &[u8], at: usize) -> Result<Asked, Unreadable>
        ensures { IfOk result Placed × (result ≡ asked_of line.now at) }
    {
        let start = skip(line, at);
        if start == line.len() {
            return Err(Unreadable::MissingWord);
        }
        let end = find(line, start, b' ');
        match &line[start..end] {
            b"add" => add(line, end),
            b"release" => release(line, end),
            b"read" => read(line, end),
            _ => Err(Unreadable::UnknownCommand),
        }
    }
}
