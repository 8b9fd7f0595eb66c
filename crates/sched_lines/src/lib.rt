// Lines that call the scheduler.

#![tactic(auto)]

ghost use Rattle.std.specs.Prelude.{◌≡◌};
ghost use Rattle.page.specs.Page.{Puts};
ghost use Rattle.sched_lines.specs.Sched.{key_of, words_of, asked_of, until_of, next_line, at_line, event_line, pop_line, called_of, sched_of, Leaves};

use page::Page;
use scheduler::{Event, EventKey, Popping, Scheduler};
use words::{Unreadable, decimal, exactly, find, low8, skip};

// A call with its words.
#[derive(Clone, Copy)]
enum Asked {
    At { key: EventKey, cycle: u64 },
    Cancel(EventKey),
    Is(EventKey),
    Pop(u64),
    Clear,
}

// Reads the two words of a key, and where they end.
#[tactic(auto, unfolding(crate::specs::Sched::key_of, words::specs::Words::and_then))]
fn key(line: &[u8], at: usize) -> Result<(EventKey, usize), Unreadable>
    ensures { result ≡ key_of line.now at }
{
    let owner = decimal(line, at, 0xff)?;
    let tag = decimal(line, owner.end, 0xff)?;
    let key = EventKey {
        owner: low8(owner.value),
        tag: low8(tag.value),
    };
    Ok((key, tag.end))
}

// Reads the words of a call, which are counted first.
#[tactic(auto, unfolding(crate::specs::Sched::words_of, words::specs::Words::and_then, figures::specs::Figures::codes))]
fn words(name: &[u8], line: &[u8], at: usize) -> Result<Asked, Unreadable>
    ensures { result ≡ words_of name.now line.now at }
{
    match name {
        b"at" => {
            exactly(line, at, 3)?;
            let (key, end) = key(line, at)?;
            let cycle = decimal(line, end, u64::MAX)?.value;
            Ok(Asked::At { key, cycle })
        }
        b"cancel" => {
            exactly(line, at, 2)?;
            Ok(Asked::Cancel(key(line, at)?.0))
        }
        b"is" => {
            exactly(line, at, 2)?;
            Ok(Asked::Is(key(line, at)?.0))
        }
        b"pop" => {
            exactly(line, at, 1)?;
            Ok(Asked::Pop(decimal(line, at, u64::MAX)?.value))
        }
        b"clear" => {
            exactly(line, at, 0)?;
            Ok(Asked::Clear)
        }
        _ => Err(Unreadable::UnknownCommand),
    }
}

impl Asked {
    // What a line asks for, from a place on.
    #[tactic(auto, unfolding(crate::specs::Sched::asked_of))]
    fn of(line: &[u8], at: usize) -> Result<Asked, Unreadable>
        ensures { result ≡ asked_of line.now at }
    {
        let start = skip(line, at);
        if start == line.len() {
            return Err(Unreadable::MissingWord);
        }
        let end = find(line, start, b' ');
        words(&line[start..end], line, end)
    }
}

// Puts a label and a cycle, none where it is the largest.
#[tactic(auto, using(page::proofs::Sheets::then), unfolding(crate::specs::Sched::until_of, figures::specs::Figures::codes))]
fn cycle(page: &mut Page, label: &[u8], n: u64)
    ensures { Puts page.old page.new (until_of label.now n) }
{
    if n < u64::MAX {
        page.number(label, n);
    } else {
        page.text(label);
        page.text(b"none");
    }
}

// Puts a scheduler's next cycle.
#[tactic(auto, unfolding(figures::specs::Figures::codes))]
fn next(page: &mut Page, s: Scheduler)
    ensures { Puts page.old page.new (next_line s) }
{
    cycle(page, b"ok next=", s.next());
}

// Puts the cycle at which a key is scheduled.
#[tactic(auto, unfolding(crate::specs::Sched::at_line, figures::specs::Figures::codes))]
fn scheduled(page: &mut Page, at: Option<u64>)
    ensures { Puts page.old page.new (at_line at) }
{
    match at {
        Some(cycle) => page.number(b"ok at=", cycle),
        None => page.text(b"ok at=none"),
    }
}

// Puts an event that was due, and the next cycle.
#[tactic(auto, using(page::proofs::Sheets::then), unfolding(crate::specs::Sched::event_line, figures::specs::Figures::codes))]
fn event(page: &mut Page, event: Event, next: u64)
    ensures { Puts page.old page.new (event_line event next) }
{
    page.number(b"ok owner=", event.key.owner as u64);
    page.number(b" tag=", event.key.tag as u64);
    page.number(b" at=", event.cycle);
    cycle(page, b" next=", next);
}

// Puts the event that was due, if there is one.
#[tactic(auto, unfolding(crate::specs::Sched::pop_line, figures::specs::Figures::codes))]
fn popped(page: &mut Page, due: Option<Event>, next: u64)
    ensures { Puts page.old page.new (pop_line due next) }
{
    match due {
        Some(due) => event(page, due, next),
        None => page.text(b"ok none"),
    }
}

// Hands a call to the scheduler, and puts its answer.
#[tactic(auto, unfolding(crate::specs::Sched::called_of, crate::specs::Sched::set_of, figures::specs::Figures::codes))]
fn call(s: Scheduler, asked: Asked, page: &mut Page) -> Scheduler
    ensures { Leaves page.old page.new result (called_of asked s) }
{
    match asked {
        Asked::At { key, cycle } => match s.at(key, cycle) {
            Ok(after) => {
                next(page, after);
                after
            }
            Err(why) => {
                page.number(b"refused ", why.number() as u64);
                s
            }
        },
        Asked::Cancel(key) => {
            let after = s.cancel(key);
            next(page, after);
            after
        }
        Asked::Is(key) => {
            scheduled(page, s.is_scheduled(key));
            s
        }
        Asked::Pop(now) => {
            let Popping { due, scheduler } = s.pop_due(now);
            popped(page, due, scheduler.next());
            scheduler
        }
        Asked::Clear => {
            let after = s.clear();
            next(page, after);
            after
        }
    }
}

// Answers a sched line, the nth of the script, from the place after its name. A line that cannot be read leaves the scheduler as it is.
#[tactic(auto, unfolding(crate::specs::Sched::heard_of))]
pub fn sched_line(s: Scheduler, page: &mut Page, nth: u64, line: &[u8], at: usize) -> Scheduler
    ensures { Leaves page.old page.new result (sched_of s nth line.now at) }
{
    match Asked::of(line, at) {
        Ok(asked) => call(s, asked, page),
        Err(why) => {
            page.unreadable(nth, why);
            s
        }
    }
}
