// Lists of writes, worked on the timer.

ghost use Rattle.std.specs.Prelude.{ℕ, ◌≤◌, ◌≡◌, List, length, IfOk, IfSome};
ghost use Rattle.page.specs.Page.{Puts};
ghost use Rattle.counter.specs.Valid.{Valid};
ghost use Rattle.list_lines.specs.Lists.{reason_of, ended_of, worked_of, of_list, word_of, asked_of, writes_line, Leaves};

use crate::made::Items;
use counter::state::Timer;
use digits::Bytes;
use display::answer::records;
use page::Page;
use room::{changed, fill};
use words::{Unreadable, decimal, exactly};
use writes::{Why, Written, writes};

// The bytes of the longest list that a line can hold.
const LONGEST: usize = 250;

// What a line asks for: its own list, none where that of lines is meant, and the size of the area.
#[derive(Drop)]
struct Asked {
    list: Option<Bytes<LONGEST>>,
    size: usize,
}

// What a line leaves: the timer, if there is one, and how many bytes of the area are records.
#[derive(Clone, Copy)]
pub struct Left {
    pub timer: Option<Timer>,
    pub written: usize,
}

impl Asked {
    // Reads the size and a list.
    #[tactic(auto, unfolding(crate::specs::Lists::word_of, words::specs::Words::and_then))]
    fn word(line: &[u8], at: usize) -> Result<Asked, Unreadable>
        ensures { IfOk result (λ q. q.size ≤ 4096) × (result ≡ word_of line.now at) }
    {
        exactly(line, at, 2)?;
        let size = decimal(line, at, 4096)?;
        let list = Bytes::of(line, size.end)?;
        Ok(Asked {
            list: Some(list),
            size: size.value as usize,
        })
    }

    // Reads the size alone, where there is but one word, else a list too.
    #[tactic(auto, unfolding(crate::specs::Lists::asked_of, words::specs::Words::and_then))]
    fn of(line: &[u8], at: usize) -> Result<Asked, Unreadable>
        ensures { IfOk result (λ q. q.size ≤ 4096) × (result ≡ asked_of line.now at) }
    {
        if exactly(line, at, 1).is_err() {
            return Asked::word(line, at);
        }
        let size = decimal(line, at, 4096)?;
        Ok(Asked {
            list: None,
            size: size.value as usize,
        })
    }
}

// Puts why a list ended.
#[tactic(auto, unfolding(crate::specs::Lists::reason_of, figures::specs::Figures::codes))]
fn reason(page: &mut Page, why: Why)
    ensures { Puts page.old page.new (reason_of why) }
{
    match why {
        Why::Refused(n) => page.number(b" why=refused number=", n as u64),
        Why::AllDone => page.text(b" why=all"),
        Why::Paused(cycle, _) => page.number(b" why=paused cycle=", cycle.0),
    }
}

// Puts how many items are done, why the list ended, and the bytes written.
#[tactic(auto, using(page::proofs::Sheets::then), unfolding(crate::specs::Lists::ended_of, figures::specs::Figures::codes))]
fn ended(page: &mut Page, w: Written, area: &[u8])
    ensures { Puts page.old page.new (ended_of w.done w.why area.now w.written) }
{
    page.number(b"ok done=", w.done as u64);
    reason(page, w.why);
    records(page, area, w.written)
}

// Works a list on an area, filled, and puts the answer, or where the area changed beyond what was written.
fn worked(t: Timer, page: &mut Page, list: &[u8], area: &mut [u8]) -> Left
    requires { Valid t }
    ensures { (items : List ℕ) → Leaves (worked_of t items list.now (length area.old)) page.old page.new area.new items result }
{
    fill(area);
    let w = writes(t, list, area);
    let timer = Some(w.timer);
    let end = changed(area, w.written);
    if end < area.len() {
        page.number(b"area changed at ", end as u64);
        return Left { timer, written: 0 };
    }
    ended(page, w, area);
    Left {
        timer,
        written: w.written,
    }
}

// Works what a line asks for on the first bytes of the area; the list of lines is emptied, where there is a timer to work it.
#[tactic(auto, unfolding(crate::specs::Lists::of_list, crate::specs::Lists::of_bytes, crate::specs::Lists::on_timer, figures::specs::Figures::codes))]
fn heard(
    t: Option<Timer>,
    asked: Asked,
    page: &mut Page,
    items: &mut Items,
    area: &mut [u8],
) -> Left
    requires { (IfSome t Valid) × (asked.size ≤ 4096) × (4096 ≤ length area.old) }
    ensures { Leaves (of_list t items.old asked.list asked.size area.old) page.old page.new area.new items.new result }
{
    match (&asked.list, t) {
        (Some(list), _) if list.as_slice().len() % 10 != 0 => page.text(b"refused 12"),
        (_, None) => page.text(b"no timer"),
        (Some(list), Some(timer)) => {
            return worked(timer, page, list.as_slice(), &mut area[..asked.size]);
        }
        (None, Some(timer)) => {
            let left = worked(timer, page, items.as_slice(), &mut area[..asked.size]);
            items.clear();
            return left;
        }
    }
    Left {
        timer: t,
        written: 0,
    }
}

// Answers a writes line from the place after its name, on an area of which the list has as many bytes as it asks for.
#[tactic(auto, unfolding(crate::specs::Lists::heard_of))]
pub fn writes_line(
    t: Option<Timer>,
    page: &mut Page,
    nth: u64,
    line: &[u8],
    at: usize,
    items: &mut Items,
    area: &mut [u8],
) -> Left
    requires { (IfSome t Valid) × (4096 ≤ length area.old) }
    ensures { Leaves (writes_line t nth line.now at items.old area.old) page.old page.new area.new items.new result }
{
    match Asked::of(line, at) {
        Ok(asked) => heard(t, asked, page, items, area),
        Err(why) => {
            page.unreadable(nth, why);
            Left {
                timer: t,
                written: 0,
            }
        }
    }
}
