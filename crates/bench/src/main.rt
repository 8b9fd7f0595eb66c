// Reads a script from standard input in pieces, and answers it on standard output.

#![tactic(auto)]

mod files;
mod pages;

ghost use Rattle.std.specs.Prelude.{ℕ, false, List, ◌≡◌, ◌≤◌, ◌<◌, length};
ghost use Rattle.linewise.specs.Texts.{going};
ghost use Rattle.bench_lines.specs.Claims.{left};
ghost use Rattle.bench_lines.specs.Desk.{Sound, Stable};
ghost use Rattle.bench_lines.specs.Named.{lent};
ghost use Rattle.bench_lines.specs.Steps.{Held};
ghost use Rattle.session.specs.Runs.{Carries};

use crate::files::filed;
use crate::pages::{flush, turned};
use bench_lines::desk::{Bench, Desk, Shelf};
use linewise::Line;
use list_lines::made::Items;
use log_lines::Area;
use page::Page;
use record_ring::BYTES;
use room::{FILL, ROOM, Room};
use session::runs::next_lines;
use session::settles::settled;
use std::fs::File;
use std::io::{Read, Write};
use std::rt::Files;

// Answers the lines that end in a piece, and holds what is left. Between them the page is written out where it has no room, and the file does what a line asks.
fn piece<R: Files<File = File>, W: Write>(
    rt: &R,
    file: &mut Option<File>,
    output: &mut W,
    d: Desk,
    input: &[u8],
    line: &mut Line,
    room: &mut Room,
    one: &mut Room,
    two: &mut Room,
    area: &mut Area,
    items: &mut Items,
    page: &mut Page,
) -> Desk
    requires { (Sound d.bench) × Stable d.shelf }
    ensures { (Sound result.bench) × (Stable result.shelf) × ((answers bytes : List ℕ) → Held (going line.old) bytes → Carries (left d.bench d.shelf (lent room.old area.old items.old) one.old two.old answers) bytes input.now result.bench result.shelf (lent room.new area.new items.new) one.new two.new (going line.new)) × (line.old.ended ≡ false → line.new.ended ≡ false) × (0 < length input.now → line.new.ended ≡ false) }
{
    let mut desk = d;
    let mut next = 0;
    while next < input.len() {
        turned(output, page);
        let went = next_lines(desk, input, next, line, room, one, two, area, items, page);
        next = went.next;
        desk = went.desk;
        if let Some(asked) = went.asked {
            let answer = filed(rt, file, desk.bench, room, one, two);
            desk = settled(desk, asked, answer, page);
        }
    }
    desk
}

// Reads the next bytes of the input; a read that fails is its end.
fn read<I: Read>(from: &mut I, input: &mut [u8]) -> usize
    ensures { result ≤ length input.new }
{
    match from.read(input) {
        Ok(count) => count,
        Err(_) => 0,
    }
}

// Reads piece after piece, until none comes; a line feed ends the last line. A proved loop has to end, and nothing says that the input does: it has more turns
// than any run uses up.
fn main(rt: HostRuntime) {
    let mut from = rt.stdin();
    let mut output = rt.stdout();
    let mut file = None;
    let mut input = [0u8; 65536];
    let mut line = Line::new();
    let mut room = [FILL; ROOM];
    let mut one = [FILL; ROOM];
    let mut two = [FILL; ROOM];
    let mut area = [FILL; BYTES];
    let mut items = Items::new();
    let mut page = Page::new();
    let mut desk = Desk {
        bench: Bench::new(),
        shelf: Shelf::new(),
    };
    for _ in 0..u64::MAX {
        let n = read(&mut from, &mut input);
        if n == 0 {
            break;
        }
        desk = piece(
            &rt,
            &mut file,
            &mut output,
            desk,
            &input[..n],
            &mut line,
            &mut room,
            &mut one,
            &mut two,
            &mut area,
            &mut items,
            &mut page,
        );
    }
    let _ = piece(
        &rt,
        &mut file,
        &mut output,
        desk,
        b"\n",
        &mut line,
        &mut room,
        &mut one,
        &mut two,
        &mut area,
        &mut items,
        &mut page,
    );
    flush(&mut output, &page);
}
