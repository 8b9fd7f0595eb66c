// A script's lines, one after the other.

ghost use Rattle.std.specs.Prelude.{◌≡◌, ℕ, ◌<◌, ◌≤◌, List, length, IfSome};
ghost use Rattle.linewise.specs.Texts.{going};
ghost use Rattle.bench_lines.specs.Desk.{Sound};
ghost use Rattle.bench_lines.specs.Named.{Asking, Hears, lent};
ghost use Rattle.bench_lines.specs.Steps.{Held, Turns, counted, ended_of, heard_of, first_of};

use crate::desk::Bench;
use crate::named::{Heard, Later, worded};
use linewise::Line;
use list_lines::made::Items;
use log_lines::Area;
use page::Page;
use room::Room;
use words::{Unreadable, find, skip};

// The bench after a piece up to a place, whether a line ended there, and what that asks of the shelf.
#[derive(Clone, Copy)]
pub struct Turned {
    pub bench: Bench,
    pub next: usize,
    pub ended: bool,
    pub later: Option<Later>,
}

// The bench at the next line: its number, which goes on from 2^64 - 1 to 0, and nothing for the file.
fn counted(mut b: Bench) -> Bench
    requires { Sound b }
    ensures { (Sound result) × (result ≡ counted b) }
{
    b.line = b.line.wrapping_add(1);
    b.kept = 0;
    b.anew = false;
    b
}

// Ends an answer, unless it is still to come.
fn ended(h: Heard, page: &mut Page) -> Heard
    ensures { (x : Asking) (old room area items : List ℕ) → Hears x old page.old room area items h → Hears (ended_of x) old page.new room area items result }
{
    match h.later {
        Some(later) => h,
        None => {
            page.byte(b'\n');
            h
        }
    }
}

// Answers a line without its comment; nothing where it has no words.
fn heard(
    b: Bench,
    page: &mut Page,
    line: &[u8],
    room: &mut Room,
    area: &mut Area,
    items: &mut Items,
) -> Heard
    requires { Sound b }
    ensures { Hears (heard_of b line.now (lent room.old area.old items.old)) page.old page.new room.new area.new items.new result }
{
    let start = skip(line, 0);
    if start == line.len() {
        return Heard {
            bench: b,
            later: None,
        };
    }
    let heard = worded(b, page, line, start, room, area, items);
    ended(heard, page)
}

// Answers the line that is held.
fn step(
    b: Bench,
    page: &mut Page,
    line: &Line,
    room: &mut Room,
    area: &mut Area,
    items: &mut Items,
) -> Heard
    requires { Sound b }
    ensures { Hears (first_of b line.now.bytes (lent room.old area.old items.old)) page.old page.new room.new area.new items.new result }
{
    let b = counted(b);
    if line.is_too_long() {
        page.unreadable(b.line, Unreadable::TooLong);
        page.byte(b'\n');
        return Heard {
            bench: b,
            later: None,
        };
    }
    let held = line.held();
    let end = find(held, 0, b'#');
    heard(b, page, &held[..end], room, area, items)
}

// Reads a piece from a place on to the end of a line, or its own, and answers the line that ended, which is still held until the next is read.
pub fn next_turn(
    b: Bench,
    page: &mut Page,
    input: &[u8],
    start: usize,
    line: &mut Line,
    room: &mut Room,
    area: &mut Area,
    items: &mut Items,
) -> Turned
    requires { (Sound b) × (start < length input.now) }
    ensures { (Sound result.bench) × IfSome result.later (λ q. q.end ≤ length line.new.bytes) × (start < result.next) × (result.next ≤ length input.now) × ((bytes : List ℕ) → Held (going line.old) bytes → Turns b (lent room.old area.old items.old) bytes input.now start page.old page.new room.new area.new items.new line.new result) × (line.new.ended ≡ result.ended) × IfSome result.later (λ q. q.end ≤ 500) }
{
    let reached = line.next_cut(input, start);
    if reached.ended {
        let heard = step(b, page, line, room, area, items);
        return Turned {
            bench: heard.bench,
            next: reached.at,
            ended: true,
            later: heard.later,
        };
    }
    Turned {
        bench: b,
        next: reached.at,
        ended: false,
        later: None,
    }
}

// Reads a piece as `next_turn` does, but behind all bytes that are held, those of a line that has ended too.
pub fn turn(
    b: Bench,
    page: &mut Page,
    input: &[u8],
    start: usize,
    line: &mut Line,
    room: &mut Room,
    area: &mut Area,
    items: &mut Items,
) -> Turned
    requires { (Sound b) × (start < length input.now) }
    ensures { (Sound result.bench) × IfSome result.later (λ q. q.end ≤ length line.new.bytes) × (start < result.next) × (result.next ≤ length input.now) × ((bytes : List ℕ) → Held line.old.bytes bytes → Turns b (lent room.old area.old items.old) bytes input.now start page.old page.new room.new area.new items.new line.new result) × (line.new.ended ≡ result.ended) × IfSome result.later (λ q. q.end ≤ 500) }
{
    line.reopen();
    next_turn(b, page, input, start, line, room, area, items)
}
