// A line by its first word.

ghost use Rattle.std.specs.Prelude.{◌≡◌, ◌≤◌, length};
ghost use Rattle.bench_lines.specs.Desk.{Sound};
ghost use Rattle.bench_lines.specs.Named.{Leaves, Hears, lent, other_of, command_of, later_of, named_of, worded_of};

use crate::desk::Bench;
use crate::lines::{configured, doored, listed, logged, recorded, timed, watched};
use list_lines::made::{Items, item_line};
use log_lines::Area;
use page::Page;
use pin_lines::pin_line;
use room::Room;
use words::{Unreadable, find, place};

// What stands on the shelf.
#[derive(Clone, Copy, PartialEq, Eq)]
pub enum Device {
    Scheduler,
    Board,
}

// A line's command: one of the timer's, one of the bench's others, or one of what stands on the shelf.
#[derive(Clone, Copy)]
pub enum Command {
    Timer(timer_lines::named::Command),
    Config,
    Preset,
    Pin,
    Wdt,
    Writes,
    Item,
    Door,
    Log,
    Record,
    Shelf(Device),
}

// What a line asks of the shelf: of which device, the place after its name, and where the line ends.
#[derive(Clone, Copy)]
pub struct Later {
    pub device: Device,
    pub at: usize,
    pub end: usize,
}

// The bench after a line, and what is asked of the shelf.
#[derive(Clone, Copy)]
pub struct Heard {
    pub bench: Bench,
    pub later: Option<Later>,
}

impl Command {
    // The command of a place among the names beside the timer's.
    #[tactic(auto, unfolding(crate::specs::Named::other_of))]
    fn other(place: usize) -> Command
        ensures { result ≡ other_of place }
    {
        match place {
            0 => Command::Config,
            1 => Command::Preset,
            2 => Command::Pin,
            3 => Command::Wdt,
            4 => Command::Writes,
            5 => Command::Item,
            6 => Command::Door,
            7 => Command::Log,
            8 => Command::Record,
            9 => Command::Shelf(Device::Scheduler),
            _ => Command::Shelf(Device::Board),
        }
    }

    // The command of a line's first word.
    #[tactic(auto, unfolding(crate::specs::Named::or_other, figures::specs::Figures::codes))]
    fn of(word: &[u8]) -> Option<Command>
        ensures { result ≡ command_of word.now }
    {
        if let Some(command) = timer_lines::named::named(word) {
            return Some(Command::Timer(command));
        }
        let place = place(
            b"config preset pin wdt writes item door log record sched board",
            word,
        )?;
        Some(Command::other(place))
    }

    // What the command asks of the shelf, of a line from the place after its name to its end.
    #[tactic(auto, unfolding(crate::specs::Named::later_of))]
    fn later(self, at: usize, end: usize) -> Option<Later>
        ensures { result ≡ later_of self at end }
    {
        match self {
            Command::Shelf(device) => Some(Later { device, at, end }),
            _ => None,
        }
    }
}

// Answers a line of the bench from the place after its name; of the shelf's nothing yet.
fn line_of(
    b: Bench,
    page: &mut Page,
    line: &[u8],
    at: usize,
    command: Command,
    room: &mut Room,
    area: &mut Area,
    items: &mut Items,
) -> Bench
    requires { Sound b }
    ensures { Leaves (named_of b line.now at command (lent room.old area.old items.old)) page.old page.new room.new area.new items.new result }
{
    match command {
        Command::Timer(command) => timed(b, page, line, at, command, room),
        Command::Config => configured(b, page, line, at, false),
        Command::Preset => configured(b, page, line, at, true),
        Command::Pin => {
            pin_line(page, b.line, line, at);
            b
        }
        Command::Wdt => watched(b, page, line, at, room),
        Command::Writes => listed(b, page, line, at, items, room),
        Command::Item => {
            item_line(items, page, b.line, line, at);
            b
        }
        Command::Door => doored(b, page, line, at),
        Command::Log => logged(b, page, line, at, area),
        Command::Record => recorded(b, page, line, at),
        Command::Shelf(_) => b,
    }
}

// Answers a line by its first word, which begins at a place, unless it asks for what stands on the shelf.
pub fn worded(
    b: Bench,
    page: &mut Page,
    line: &[u8],
    start: usize,
    room: &mut Room,
    area: &mut Area,
    items: &mut Items,
) -> Heard
    requires { (Sound b) × (start ≤ length line.now) }
    ensures { Hears (worded_of b line.now start (lent room.old area.old items.old)) page.old page.new room.new area.new items.new result }
{
    let at = find(line, start, b' ');
    let Some(command) = Command::of(&line[start..at]) else {
        page.unreadable(b.line, Unreadable::UnknownCommand);
        return Heard {
            bench: b,
            later: None,
        };
    };
    let bench = line_of(b, page, line, at, command, room, area, items);
    Heard {
        bench,
        later: command.later(at, line.len()),
    }
}
