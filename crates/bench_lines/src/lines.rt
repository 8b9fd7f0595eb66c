// The lines of the bench, each by its crate: what it leaves is kept, and its answer put on the page without the line feed.

ghost use Rattle.std.specs.Prelude.{◌≡◌};
ghost use Rattle.door_lines.specs.Rules.{door_line};
ghost use Rattle.list_lines.specs.Lists.{writes_line};
ghost use Rattle.log_lines.specs.Logged.{log_line};
ghost use Rattle.timer_lines.specs.Made.{config_line};
ghost use Rattle.timer_lines.specs.Named.{timer_line};
ghost use Rattle.wdt_lines.specs.Called.{wdt_line};
ghost use Rattle.bench_lines.specs.Desk.{Sound};
ghost use Rattle.bench_lines.specs.Lines.{Says, kept_of, on_script, timed_of, configured_of, watched_of, listed_of, doored_of, logged_of, timer_named, whose_of, recorded_of};

use crate::desk::{Bench, Whose};
use door_lines::rules::door_line;
use list_lines::made::Items;
use list_lines::worked::writes_line;
use log_lines::{Area, log_line};
use page::Page;
use room::Room;
use timer_lines::made::config_line;
use timer_lines::named::{Command, timer_line};
use wdt_lines::called::wdt_line;
use words::{Unreadable, decimal, exactly, skip};

// How many bytes of the script's timer's records the file takes.
#[tactic(auto, unfolding(crate::specs::Lines::kept_of))]
fn kept(whose: Whose, written: usize) -> usize
    ensures { result ≡ kept_of whose written }
{
    match whose {
        Whose::Script => written,
        _ => 0,
    }
}

// Does the file take the script's timer's records.
#[tactic(auto, unfolding(crate::specs::Lines::on_script))]
fn on_script(whose: Whose) -> bool
    ensures { result ≡ on_script whose }
{
    match whose {
        Whose::Script => true,
        _ => false,
    }
}

// A timer's line: its records go to the file where they are the script's timer's.
pub fn timed(
    mut b: Bench,
    page: &mut Page,
    line: &[u8],
    at: usize,
    command: Command,
    room: &mut Room,
) -> Bench
    requires { Sound b }
    ensures { (Says (timed_of b (timer_line b.timer b.line line.now at command room.old)) page.old page.new result) × (room.new ≡ (timer_line b.timer b.line line.now at command room.old).area) }
{
    let left = timer_line(b.timer, page, b.line, line, at, command, room);
    b.timer = left.timer;
    b.kept = kept(b.whose, left.written);
    b
}

// A line that makes a fresh timer, which begins the file anew where the records are its own.
pub fn configured(mut b: Bench, page: &mut Page, line: &[u8], at: usize, preset: bool) -> Bench
    requires { Sound b }
    ensures { Says (configured_of b (config_line b.timer b.line line.now at preset)) page.old page.new result }
{
    let made = config_line(b.timer, page, b.line, line, at, preset);
    b.timer = made.timer;
    b.anew = made.fresh & on_script(b.whose);
    b
}

// A watchdog's line.
pub fn watched(mut b: Bench, page: &mut Page, line: &[u8], at: usize, room: &mut Room) -> Bench
    requires { Sound b }
    ensures { (Says (watched_of b (wdt_line b.watchdog b.line line.now at room.old)) page.old page.new result) × (room.new ≡ (wdt_line b.watchdog b.line line.now at room.old).area) }
{
    b.watchdog = wdt_line(b.watchdog, page, b.line, line, at, room);
    b
}

// A line that works a list: its records go to the file as a call's do.
pub fn listed(
    mut b: Bench,
    page: &mut Page,
    line: &[u8],
    at: usize,
    items: &mut Items,
    room: &mut Room,
) -> Bench
    requires { Sound b }
    ensures { (Says (listed_of b (writes_line b.timer b.line line.now at items.old room.old)) page.old page.new result) × (items.new ≡ (writes_line b.timer b.line line.now at items.old room.old).items) × (room.new ≡ (writes_line b.timer b.line line.now at items.old room.old).area) }
{
    let left = writes_line(b.timer, page, b.line, line, at, items, room);
    b.timer = left.timer;
    b.kept = kept(b.whose, left.written);
    b
}

// A door's line.
pub fn doored(mut b: Bench, page: &mut Page, line: &[u8], at: usize) -> Bench
    requires { Sound b }
    ensures { Says (doored_of b (door_line b.door b.line line.now at)) page.old page.new result }
{
    b.door = door_line(b.door, page, b.line, line, at);
    b
}

// A log's line.
pub fn logged(mut b: Bench, page: &mut Page, line: &[u8], at: usize, area: &mut Area) -> Bench
    requires { Sound b }
    ensures { (Says (logged_of b (log_line b.ring b.line line.now at area.old)) page.old page.new result) × (area.new ≡ (log_line b.ring b.line line.now at area.old).area) }
{
    b.ring = log_line(b.ring, page, b.line, line, at, area);
    b
}

// The board's timer of a number.
#[tactic(auto, unfolding(crate::specs::Lines::timer_named))]
fn timer_named(number: u64) -> Whose
    ensures { result ≡ timer_named number }
{
    match number {
        0 => Whose::Zero,
        1 => Whose::One,
        _ => Whose::Two,
    }
}

// Whose records a line asks for.
#[tactic(auto, unfolding(crate::specs::Lines::whose_of, words::specs::Words::and_then))]
fn whose(line: &[u8], at: usize) -> Result<Whose, Unreadable>
    ensures { result ≡ whose_of line.now at }
{
    if skip(line, at) == line.len() {
        return Ok(Whose::Script);
    }
    exactly(line, at, 1)?;
    let number = decimal(line, at, 2)?;
    Ok(timer_named(number.value))
}

// A line that has records kept, in a file begun anew.
pub fn recorded(mut b: Bench, page: &mut Page, line: &[u8], at: usize) -> Bench
    requires { Sound b }
    ensures { Says (recorded_of b (whose_of line.now at)) page.old page.new result }
{
    match whose(line, at) {
        Err(why) => page.unreadable(b.line, why),
        Ok(whose) => {
            b.whose = whose;
            b.anew = true;
            page.text(b"ok recording");
        }
    }
    b
}
