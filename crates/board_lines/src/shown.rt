// What is shown of the board: an order's answer, and the board as it stands.

ghost use Rattle.board.specs.Calls.{areas_of};
ghost use Rattle.board.specs.State.{Valid};
ghost use Rattle.page.specs.Page.{Puts};
ghost use Rattle.board_lines.specs.Shown.{nexts_of, records_of, answer_of, held_of, plans_of, board_of};

use answers::Answer;
use board::outcome::{Outcome, Written};
use board::state::Board;
use display::answer::{bytes, cycle, flags, said};
use display::state::state;
use m328p::Id;
use page::Page;
use plans::key;
use scheduler::Scheduler;

// Puts the next event of each timer, and the flags that each will raise.
#[tactic(auto, using(page::proofs::Sheets::then), unfolding(crate::specs::Shown::nexts_of, figures::specs::Figures::codes))]
fn nexts(page: &mut Page, b: &Board)
    requires { Valid b.now }
    ensures { Puts page.old page.new (nexts_of b.now) }
{
    let zero = b.zero.next();
    let one = b.one.next();
    let two = b.two.next();
    cycle(page, b" next=", zero);
    cycle(page, b",", one);
    cycle(page, b",", two);
    flags(page, b" flags=", zero);
    flags(page, b",", one);
    flags(page, b",", two)
}

// Puts how many bytes were written in each area, and which.
#[tactic(auto, using(page::proofs::Sheets::then), unfolding(crate::specs::Shown::records_of, figures::specs::Figures::codes))]
fn records(page: &mut Page, written: Written, zero: &[u8], one: &[u8], two: &[u8])
    ensures { Puts page.old page.new (records_of written (areas_of zero.now one.now two.now)) }
{
    page.number(b" bytes=", written.zero as u64);
    page.number(b",", written.one as u64);
    page.number(b",", written.two as u64);
    bytes(page, b" records=", zero, written.zero);
    bytes(page, b",", one, written.one);
    bytes(page, b",", two, written.two)
}

// Puts an order's answer.
pub fn answer(page: &mut Page, o: &Outcome, zero: &[u8], one: &[u8], two: &[u8])
    requires { Valid o.now.board }
    ensures { Puts page.old page.new (answer_of o.now (areas_of zero.now one.now two.now)) }
{
    let answer = o.answer;
    said(page, answer);
    if let Answer::Refused(_) = answer {
        return;
    }
    nexts(page, &o.board);
    records(page, o.written, zero, one, two)
}

// Puts a label and the cycle that the scheduler holds for a timer, `none` where it holds none.
#[tactic(auto, using(page::proofs::Sheets::then), unfolding(crate::specs::Shown::held_at, figures::specs::Figures::codes))]
fn held(page: &mut Page, label: &[u8], s: Scheduler, id: Id)
    ensures { Puts page.old page.new (held_of label.now s id) }
{
    match s.is_scheduled(key(id)) {
        Some(cycle) => page.number(label, cycle),
        None => {
            page.text(label);
            page.text(b"none")
        }
    }
}

// Puts GTCCR, and the cycles that the scheduler holds.
#[tactic(auto, using(page::proofs::Sheets::then), unfolding(crate::specs::Shown::plans_of, figures::specs::Figures::codes))]
fn plans(page: &mut Page, b: &Board)
    requires { Valid b.now }
    ensures { Puts page.old page.new (plans_of b.now) }
{
    let s = b.scheduler;
    page.register(b"board gtccr=", b.gtccr);
    held(page, b" sched=", s, Id::Zero);
    held(page, b",", s, Id::One);
    held(page, b",", s, Id::Two);
}

// Puts the board as it stands, and on a line of its own each timer.
#[tactic(auto, using(page::proofs::Sheets::then), unfolding(crate::specs::Shown::board_of))]
pub fn stands(page: &mut Page, b: &Board)
    requires { Valid b.now }
    ensures { Puts page.old page.new (board_of b.now) }
{
    plans(page, b);
    page.byte(b'\n');
    state(page, b.zero);
    page.byte(b'\n');
    state(page, b.one);
    page.byte(b'\n');
    state(page, b.two)
}
