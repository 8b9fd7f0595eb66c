// The board that lines order. The three areas stay apart, as the board's calls take them.

ghost use Rattle.std.specs.Prelude.{◌≤◌, ◌≡◌, false, length, IfSome};
ghost use Rattle.board.specs.Calls.{areas_of, nothing};
ghost use Rattle.board.specs.State.{Valid};
ghost use Rattle.board_lines.specs.Asked.{size_of};
ghost use Rattle.board_lines.specs.Ordered.{spoilt, spoilt_of, told_of, filled_to, called_of, order_line, Leaves};

use crate::asked::Asked;
use crate::shown::{answer, stands};
use aims::Order;
use board::call;
use board::outcome::{Outcome, Written};
use board::state::Board;
use page::Page;
use room::{changed, fill};
use time::units::Cycle;

// What a line leaves: the board, if there is one, how many bytes of each area are records, and whether the board is a fresh one.
#[derive(Clone, Copy)]
pub struct Left {
    pub board: Option<Board>,
    pub written: Written,
    pub fresh: bool,
}

impl Left {
    // A board that no record was written of.
    fn quiet(board: Option<Board>) -> Left
        ensures { result ≡ record { board = board; written = nothing; fresh = false } }
    {
        Left {
            board,
            written: Written::nothing(),
            fresh: false,
        }
    }
}

// Did an area change beyond what was written.
fn spoilt(area: &[u8], written: usize) -> bool
    ensures { result ≡ spoilt area.now written }
{
    changed(area, written) < area.len()
}

// Did one of three.
#[tactic(auto, unfolding(crate::specs::Ordered::spoilt_of))]
fn any_spoilt(w: Written, zero: &[u8], one: &[u8], two: &[u8]) -> bool
    ensures { result ≡ spoilt_of (areas_of zero.now one.now two.now) w }
{
    spoilt(zero, w.zero) || spoilt(one, w.one) || spoilt(two, w.two)
}

// Puts an order's answer, or that an area changed beyond what was written.
#[tactic(auto, unfolding(crate::specs::Ordered::told_of, figures::specs::Figures::codes))]
fn told(o: Outcome, page: &mut Page, zero: &[u8], one: &[u8], two: &[u8]) -> Left
    requires { Valid o.board }
    ensures { Leaves (told_of o (areas_of zero.now one.now two.now)) page.old page.new zero.now one.now two.now result }
{
    if any_spoilt(o.written, zero, one, two) {
        page.text(b"area changed");
        return Left::quiet(Some(o.board));
    }
    answer(page, &o, zero, one, two);
    Left {
        board: Some(o.board),
        written: o.written,
        fresh: false,
    }
}

// Orders the board on three areas, filled, and puts the answer.
fn called(
    b: Board,
    order: Order,
    cycle: u64,
    page: &mut Page,
    zero: &mut [u8],
    one: &mut [u8],
    two: &mut [u8],
) -> Left
    requires { Valid b }
    ensures { Leaves (called_of b order cycle (filled_to (length zero.old) (length one.old) (length two.old))) page.old page.new zero.new one.new two.new result }
{
    fill(zero);
    fill(one);
    fill(two);
    let o = call(b, order, Cycle(cycle), zero, one, two);
    told(o, page, zero, one, two)
}

// Works what a line asks of the board, on areas of which an order has as many bytes as it asks for.
#[tactic(auto, using(crate::proofs::Ordering::stays, crate::proofs::Ordering::made_fresh), unfolding(crate::specs::Ordered::order_line, figures::specs::Figures::codes))]
pub fn order_line(
    b: Option<Board>,
    asked: Asked,
    page: &mut Page,
    zero: &mut [u8],
    one: &mut [u8],
    two: &mut [u8],
) -> Left
    requires { (IfSome b Valid) × (size_of asked ≤ 4096) × (4096 ≤ length zero.old) × (4096 ≤ length one.old) × (4096 ≤ length two.old) }
    ensures { Leaves (order_line b asked (areas_of zero.old one.old two.old)) page.old page.new zero.new one.new two.new result }
{
    match (asked, b) {
        (Asked::New, _) => {
            page.text(b"ok config");
            Left {
                board: Some(Board::new()),
                written: Written::nothing(),
                fresh: true,
            }
        }
        (_, None) => {
            page.text(b"no timer");
            Left::quiet(None)
        }
        (Asked::State, Some(board)) => {
            stands(page, &board);
            Left::quiet(Some(board))
        }
        (Asked::Call { order, cycle, size }, Some(board)) => called(
            board,
            order,
            cycle,
            page,
            &mut zero[..size],
            &mut one[..size],
            &mut two[..size],
        ),
    }
}
