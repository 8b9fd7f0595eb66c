// Lines one after the other, while the page has room.

ghost use Rattle.std.specs.Prelude.{ℕ, ◌+◌, ◌≤◌, ◌<◌, true, false, List, ◌≡◌, leb, length, Some, IfSome};
ghost use Rattle.page.specs.Page.{size};
ghost use Rattle.linewise.specs.Texts.{going};
ghost use Rattle.bench_lines.specs.Claims.{left, longest};
ghost use Rattle.bench_lines.specs.Desk.{Sound, Stable};
ghost use Rattle.bench_lines.specs.Named.{lent};
ghost use Rattle.bench_lines.specs.Steps.{Held};
ghost use Rattle.session.specs.Files.{asks_of};
ghost use Rattle.session.specs.Runs.{roomy_of, Rests, Goes};

use bench_lines::desk::{Bench, Desk, Shelf};
use bench_lines::named::Later;
use bench_lines::shelved::shelved;
use bench_lines::turns::next_turn;
use linewise::Line;
use list_lines::made::Items;
use log_lines::Area;
use page::{Page, SIZE};
use room::Room;

// The bytes of the longest answer: an order's to the board with three areas of 4,096 bytes, and its line feed.
const ANSWER: usize = 24_777;

// The desk before a line that asks something of the file, and the place of the page where its answer begins.
#[derive(Clone, Copy)]
pub struct Asked {
    pub before: Desk,
    pub from: usize,
}

// The desk after some lines, how far the piece was read, and what was before the last line where that asks something of the file.
#[derive(Clone, Copy)]
pub struct Went {
    pub desk: Desk,
    pub next: usize,
    pub asked: Option<Asked>,
}

// Has a page that is written up to a place room for the longest answer.
pub fn roomy_at(at: usize) -> bool
    ensures { result ≡ leb (at + longest) size }
{
    at <= SIZE - ANSWER
}

// Has the page room for the longest answer.
pub fn roomy(page: &Page) -> bool
    ensures { result ≡ roomy_of page.now }
{
    roomy_at(page.len())
}

// Does a line ask something of the file: that it is begun anew, or takes bytes.
#[tactic(auto, unfolding(crate::specs::Files::asks_of))]
fn asks(b: Bench) -> bool
    ensures { result ≡ asks_of b }
{
    b.anew | (b.kept > 0)
}

// Works what a line asks of the shelf.
fn rest_of(
    bench: Bench,
    shelf: Shelf,
    later: Later,
    page: &mut Page,
    line: &Line,
    room: &mut Room,
    one: &mut Room,
    two: &mut Room,
) -> Desk
    requires { (Sound bench) × (Stable shelf) × (later.end ≤ length line.now.bytes) }
    ensures { (Sound result.bench) × (Stable result.shelf) × Rests (Some later) (record { bench = bench; shelf = shelf }) line.now.bytes page.old page.new room.old one.old two.old room.new one.new two.new result }
{
    let desk = Desk { bench, shelf };
    shelved(desk, page, line.held(), later, room, one, two)
}

// What a line that asks something of the file leaves, and what was before it.
fn stopped(
    before: Bench,
    spare: Shelf,
    from: usize,
    bench: Bench,
    shelf: Shelf,
    next: usize,
) -> Went
    ensures { result ≡ record { desk = record { bench = bench; shelf = shelf }; next = next; asked = Some (record { before = record { bench = before; shelf = spare }; from = from }) } }
{
    let before = Desk {
        bench: before,
        shelf: spare,
    };
    Went {
        desk: Desk { bench, shelf },
        next,
        asked: Some(Asked { before, from }),
    }
}

// Answers the lines that end in a piece, from a place of it on, and holds what is left of it: nothing of a line that ended. A line that asks something of the file is the last.
pub fn next_lines(
    d: Desk,
    input: &[u8],
    start: usize,
    line: &mut Line,
    room: &mut Room,
    one: &mut Room,
    two: &mut Room,
    area: &mut Area,
    items: &mut Items,
    page: &mut Page,
) -> Went
    requires { (Sound d.bench) × (Stable d.shelf) × (start < length input.now) }
    ensures { ((answers bytes : List ℕ) → Held (going line.old) bytes → Goes (left d.bench d.shelf (lent room.old area.old items.old) one.old two.old answers) bytes input.now start page.old result (lent room.new area.new items.new) one.new two.new (going line.new) page.new) × (start ≤ result.next) × (result.next ≤ length input.now) × (roomy_of page.old ≡ true → start < result.next) × (Sound result.desk.bench) × (Stable result.desk.shelf) × IfSome result.asked (λ a. (Sound a.before.bench) × Stable a.before.shelf) × (line.old.ended ≡ false → line.new.ended ≡ false) × (start < result.next → line.new.ended ≡ false) × IfSome result.asked (λ a. leb (a.from + longest) size ≡ true) }
{
    let mut b = d.bench;
    let mut shelf = d.shelf;
    let mut next = start;
    while (next < input.len()) & roomy(page) {
        let from = page.len();
        let t = next_turn(b, page, input, next, line, room, area, items);
        next = t.next;
        let bench = t.bench;
        if let Some(later) = t.later {
            let spare = shelf;
            let left = rest_of(bench, shelf, later, page, line, room, one, two);
            line.clear();
            if asks(left.bench) {
                return stopped(b, spare, from, left.bench, left.shelf, next);
            }
            b = left.bench;
            shelf = left.shelf;
        } else if t.ended {
            line.clear();
            if asks(bench) {
                let spare = shelf;
                return stopped(b, spare, from, bench, shelf, next);
            }
            b = bench;
        }
    }
    Went {
        desk: Desk { bench: b, shelf },
        next,
        asked: None,
    }
}

// Answers the lines that end in a piece as `next_lines` does, but the first of them behind all bytes that are held, those of a line that has ended too.
pub fn lines(
    d: Desk,
    input: &[u8],
    start: usize,
    line: &mut Line,
    room: &mut Room,
    one: &mut Room,
    two: &mut Room,
    area: &mut Area,
    items: &mut Items,
    page: &mut Page,
) -> Went
    requires { (Sound d.bench) × (Stable d.shelf) × (start < length input.now) }
    ensures { ((answers bytes : List ℕ) → Held line.old.bytes bytes → Goes (left d.bench d.shelf (lent room.old area.old items.old) one.old two.old answers) bytes input.now start page.old result (lent room.new area.new items.new) one.new two.new line.new.bytes page.new) × (start ≤ result.next) × (result.next ≤ length input.now) × (roomy_of page.old ≡ true → start < result.next) × (Sound result.desk.bench) × (Stable result.desk.shelf) × IfSome result.asked (λ a. (Sound a.before.bench) × Stable a.before.shelf) × (line.new.ended ≡ false) × IfSome result.asked (λ a. leb (a.from + longest) size ≡ true) }
{
    line.reopen();
    next_lines(d, input, start, line, room, one, two, area, items, page)
}
