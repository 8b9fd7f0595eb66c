// Lines on what stands on the shelf.

ghost use Rattle.std.specs.Prelude.{◌≡◌, ◌≤◌, length, take};
ghost use Rattle.sched_lines.specs.Sched.{sched_of};
ghost use Rattle.board.specs.Calls.{Areas, areas_of};
ghost use Rattle.board_lines.specs.Asked.{asked_of};
ghost use Rattle.bench_lines.specs.Desk.{Sound, Stable};
ghost use Rattle.bench_lines.specs.Shelved.{Works, board_kept, on_board, scheduled_of, ordered_of, answered_of, shelved_of};

use crate::desk::{Desk, Shelf, Whose};
use crate::named::{Device, Later};
use board::outcome::Written;
use board_lines::asked::Asked;
use board_lines::ordered::order_line;
use page::Page;
use room::Room;
use sched_lines::sched_line;

// A scheduler's line.
fn scheduled(d: Desk, page: &mut Page, line: &[u8], at: usize) -> Desk
    requires { (Sound d.bench) × Stable d.shelf }
    ensures { (areas : Areas) → Works (scheduled_of d.bench d.shelf areas (sched_of d.shelf.scheduler d.bench.line line.now at)) page.old page.new areas.zero areas.one areas.two result }
{
    let Shelf { scheduler, board } = d.shelf;
    let scheduler = sched_line(scheduler, page, d.bench.line, line, at);
    Desk {
        bench: d.bench,
        shelf: Shelf { scheduler, board },
    }
}

// How many bytes of the board's records the file takes: of one timer.
#[tactic(auto, unfolding(crate::specs::Shelved::board_kept))]
fn kept(whose: Whose, w: Written) -> usize
    ensures { result ≡ board_kept whose w }
{
    match whose {
        Whose::Zero => w.zero,
        Whose::One => w.one,
        Whose::Two => w.two,
        Whose::Script => 0,
        Whose::Nobody => 0,
    }
}

// Does the file take the records of one of the board's timers.
#[tactic(auto, unfolding(crate::specs::Shelved::on_board))]
fn on_board(whose: Whose) -> bool
    ensures { result ≡ on_board whose }
{
    match whose {
        Whose::Zero => true,
        Whose::One => true,
        Whose::Two => true,
        Whose::Script => false,
        Whose::Nobody => false,
    }
}

// A board's line. A fresh board begins the file anew where the records are one of its timers'.
fn ordered(
    d: Desk,
    page: &mut Page,
    line: &[u8],
    at: usize,
    room: &mut Room,
    one: &mut Room,
    two: &mut Room,
) -> Desk
    requires { (Sound d.bench) × Stable d.shelf }
    ensures { Works (ordered_of d.bench d.shelf (areas_of room.old one.old two.old) (asked_of line.now at)) page.old page.new room.new one.new two.new result }
{
    let Desk { bench, shelf } = d;
    match Asked::of(line, at) {
        Err(why) => {
            page.unreadable(bench.line, why);
            Desk { bench, shelf }
        }
        Ok(asked) => {
            let Shelf { scheduler, board } = shelf;
            let left = order_line(board, asked, page, room, one, two);
            let mut bench = bench;
            bench.kept = kept(bench.whose, left.written);
            bench.anew = left.fresh & on_board(bench.whose);
            Desk {
                bench,
                shelf: Shelf {
                    scheduler,
                    board: left.board,
                },
            }
        }
    }
}

// Answers a line on the shelf.
fn answered(
    d: Desk,
    page: &mut Page,
    line: &[u8],
    later: Later,
    room: &mut Room,
    one: &mut Room,
    two: &mut Room,
) -> Desk
    requires { (Sound d.bench) × Stable d.shelf }
    ensures { Works (answered_of d.bench d.shelf (areas_of room.old one.old two.old) line.now later.device later.at) page.old page.new room.new one.new two.new result }
{
    match later.device {
        Device::Scheduler => scheduled(d, page, line, later.at),
        Device::Board => ordered(d, page, line, later.at, room, one, two),
    }
}

// Works what the last line asks of the shelf.
pub fn shelved(
    d: Desk,
    page: &mut Page,
    line: &[u8],
    later: Later,
    room: &mut Room,
    one: &mut Room,
    two: &mut Room,
) -> Desk
    requires { (Sound d.bench) × (Stable d.shelf) × (later.end ≤ length line.now) }
    ensures { Works (shelved_of d.bench d.shelf (areas_of room.old one.old two.old) (take later.end line.now) later.device later.at) page.old page.new room.new one.new two.new result }
{
    let desk = answered(d, page, &line[..later.end], later, room, one, two);
    page.byte(b'\n');
    desk
}
