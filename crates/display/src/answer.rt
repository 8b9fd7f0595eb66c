// A call's answer.

ghost use Rattle.counter.specs.Valid.{Valid};
ghost use Rattle.page.specs.Page.{Puts};
ghost use Rattle.display.specs.Answers.{bytes_of, records_of, cycle_of, flags_of, said_of, answer_of};

use answers::{Answer, Outcome};
use counter::next::Next;
use page::Page;

// Puts a label and the bytes written, `-` where there are none.
#[tactic(auto, using(page::proofs::Sheets::then, crate::proofs::Hexes::hexes_none, crate::proofs::Hexes::hexes_more, crate::proofs::Hexes::bytes_all), unfolding(crate::specs::Answers::bytes_of, figures::specs::Figures::codes))]
pub fn bytes(page: &mut Page, label: &[u8], area: &[u8], written: usize)
    ensures { Puts page.old page.new (bytes_of label.now area.now written) }
{
    page.text(label);
    if written == 0 {
        page.byte(b'-');
        return;
    }
    for b in &area[..written.min(area.len())] {
        page.two(*b);
    }
}

// Puts how many bytes were written, and which.
#[tactic(auto, using(page::proofs::Sheets::then), unfolding(crate::specs::Answers::records_of, figures::specs::Figures::codes))]
pub fn records(page: &mut Page, area: &[u8], written: usize)
    ensures { Puts page.old page.new (records_of area.now written) }
{
    page.number(b" bytes=", written as u64);
    bytes(page, b" records=", area, written)
}

// Puts a label and the cycle of a next event, `none` where there is none.
#[tactic(auto, using(page::proofs::Sheets::then), unfolding(crate::specs::Answers::cycle_of, figures::specs::Figures::codes))]
pub fn cycle(page: &mut Page, label: &[u8], next: Next)
    ensures { Puts page.old page.new (cycle_of label.now next) }
{
    match next {
        Next::At(cycle, flags) => page.number(label, cycle.0),
        Next::Never => {
            page.text(label);
            page.text(b"none")
        }
    }
}

// Puts a label and the flags that the tick of a next event will raise, `-` where there is none.
#[tactic(auto, using(page::proofs::Sheets::then), unfolding(crate::specs::Answers::flags_of, figures::specs::Figures::codes))]
pub fn flags(page: &mut Page, label: &[u8], next: Next)
    ensures { Puts page.old page.new (flags_of label.now next) }
{
    match next {
        Next::At(cycle, flags) => page.register(label, flags),
        Next::Never => {
            page.text(label);
            page.byte(b'-')
        }
    }
}

// Puts a refusal, the cycle where an advance paused, or the value.
#[tactic(auto, using(page::proofs::Sheets::then), unfolding(crate::specs::Answers::said_of, figures::specs::Figures::codes))]
pub fn said(page: &mut Page, answer: Answer)
    ensures { Puts page.old page.new (said_of answer) }
{
    match answer {
        Answer::Refused(n) => page.number(b"refused ", n as u64),
        Answer::Value(value) => page.register(b"ok value=", value),
        Answer::Paused(cycle, flags) => page.number(b"paused cycle=", cycle.0),
        _ => page.text(b"ok value=-"),
    }
}

// Puts a call's answer: of one that is accepted also the next event of the timer that it leaves, and the bytes written.
#[tactic(auto, using(page::proofs::Sheets::then), unfolding(crate::specs::Answers::answer_of, figures::specs::Figures::codes))]
pub fn answer(page: &mut Page, o: Outcome, area: &[u8])
    requires { Valid o.timer }
    ensures { Puts page.old page.new (answer_of o area.now) }
{
    let answer = o.answer;
    said(page, answer);
    if let Answer::Refused(n) = answer {
        return;
    }
    let t = o.timer;
    let next = t.next();
    cycle(page, b" next=", next);
    flags(page, b" flags=", next);
    records(page, area, o.written)
}
