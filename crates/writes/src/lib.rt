// A lent list of register writes, worked in one call.

#![tactic(auto)]

ghost use Rattle.std.specs.Prelude.{◌≡◌};
ghost use Rattle.passage.specs.Passage.{ticks};
ghost use Rattle.counter.specs.Valid.{Valid};
ghost use Rattle.answers.specs.Answers.{Tells, values_of};
ghost use Rattle.writes.specs.Writes.{stopping, why_of, worked, listing, Lists};

use access::write;
use answers::{Answer, Outcome};
use counter::state::Timer;
use elapse::advance;
use items::Item;
use time::units::Cycle;

// Why a list ended: every item is done, an advance paused at its sync cycle with the flags of the then next event, or a
// refusal's number.
#[derive(Clone, Copy)]
pub enum Why {
    AllDone,
    Paused(Cycle, u8),
    Refused(u8),
}

// The timer after the list, the items done, the bytes written from the area's start, and why it ended.
#[derive(Clone, Copy)]
pub struct Written {
    pub timer: Timer,
    pub done: usize,
    pub written: usize,
    pub why: Why,
}

// Does a call that answers so stop the list: it was turned away, or it paused.
fn stops(answer: Answer) -> bool
    ensures { result ≡ stopping (values_of answer) }
{
    match answer {
        Answer::Refused(n) => true,
        Answer::Done => false,
        Answer::Value(v) => false,
        Answer::Next(n) => false,
        Answer::Reached(f) => false,
        Answer::Paused(c, f) => true,
    }
}

impl Why {
    // Yields why a list ends with an answer.
    fn of(answer: Answer) -> Why
        ensures { result ≡ why_of answer }
    {
        match answer {
            Answer::Refused(n) => Why::Refused(n),
            Answer::Done => Why::AllDone,
            Answer::Value(v) => Why::AllDone,
            Answer::Next(n) => Why::AllDone,
            Answer::Reached(f) => Why::AllDone,
            Answer::Paused(c, f) => Why::Paused(c, f),
        }
    }
}

// One item: the advance to its cycle and, where that does not stop, the write in what is left of the area.
fn work(t: Timer, item: Item, area: &mut [u8]) -> Outcome
    requires { Valid t }
    ensures { Tells (worked ticks t item area.old) result area.new }
{
    let cycle = item.cycle;
    let a = advance(t, cycle, area);
    let answer = a.answer;
    if stops(answer) {
        return a;
    }
    let u = a.timer;
    let to = a.written;
    let w = write(u, item.address, item.value, cycle, &mut area[to..]);
    let answer = w.answer;
    let timer = w.timer;
    Outcome {
        answer,
        timer,
        written: to + w.written,
    }
}

// A list of writes, item after item up to the first that pauses or is turned away; 12 where its length is not a multiple of ten.
pub fn writes(t: Timer, list: &[u8], area: &mut [u8]) -> Written
    requires { Valid t }
    ensures { Lists (listing ticks t list.now area.old) result area.new }
{
    if list.len() % 10 != 0 {
        return Written {
            timer: t,
            done: 0,
            written: 0,
            why: Why::Refused(12),
        };
    }
    let items = list.len() / 10;
    let mut u = t;
    let mut done = 0;
    let mut to = 0;
    while done < items {
        let o = work(u, Item::at(list, done * 10), &mut area[to..]);
        u = o.timer;
        to += o.written;
        let answer = o.answer;
        if stops(answer) {
            return Written {
                timer: u,
                done,
                written: to,
                why: Why::of(answer),
            };
        }
        done += 1;
    }
    Written {
        timer: u,
        done,
        written: to,
        why: Why::AllDone,
    }
}
