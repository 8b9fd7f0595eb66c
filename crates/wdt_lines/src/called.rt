// The watchdog that lines make, call and show.

ghost use Rattle.std.specs.Prelude.{◌≤◌, ◌≡◌, ℕ, List, length, Some, IfSome};
ghost use Rattle.oscillator.specs.State.{Valid};
ghost use Rattle.page.specs.Page.{Puts};
ghost use Rattle.watchdog.specs.Outcome.{heard};
ghost use Rattle.wdt_lines.specs.Asked.{Sized};
ghost use Rattle.wdt_lines.specs.Called.{Leaves, told_of, called_of, heard_of, wdt_line};

use crate::asked::Asked;
use crate::shown::{answer, state};
use oscillator::state::Watchdog;
use page::Page;
use room::{changed, fill};
use time::units::Cycle;
use watchdog::calls::Call;
use watchdog::outcome::{Outcome, Refusal};

// The bytes that a call wrote.
#[tactic(auto, unfolding(watchdog::specs::Outcome::heard))]
fn written(w: Watchdog, r: Result<Outcome, Refusal>) -> usize
    ensures { (area : List ℕ) → result ≡ (heard w r area).written }
{
    match r {
        Ok(o) => o.written,
        Err(_) => 0,
    }
}

// The watchdog that a call leaves: the caller's own where it is refused.
#[tactic(auto, unfolding(watchdog::specs::Outcome::heard))]
fn left(w: Watchdog, r: Result<Outcome, Refusal>) -> Watchdog
    ensures { (area : List ℕ) → result ≡ (heard w r area).watchdog }
{
    match r {
        Ok(o) => o.watchdog,
        Err(_) => w,
    }
}

// Puts a call's answer, or where the area changed beyond what was written.
fn told(page: &mut Page, w: Watchdog, r: Result<Outcome, Refusal>, area: &[u8])
    requires { Valid (heard w r area.now).watchdog }
    ensures { Puts page.old page.new (told_of (heard w r area.now)) }
{
    let end = changed(area, written(w, r));
    if end < area.len() {
        page.number(b"area changed at ", end as u64);
    } else {
        answer(page, w, r, area);
    }
}

// Calls the watchdog on an area, filled, and puts the answer; yields the watchdog that the call leaves.
fn called(w: Watchdog, call: Call, cycle: u64, page: &mut Page, area: &mut [u8]) -> Watchdog
    requires { Valid w }
    ensures { Leaves (called_of w call cycle (length area.old)) page.old page.new area.new (Some result) }
{
    fill(area);
    let r = watchdog::call(w, call, Cycle(cycle), area);
    told(page, w, r, area);
    left(w, r)
}

// Answers what a line asks for; a call has as many bytes of the area as it asks for.
fn heard(w: Option<Watchdog>, asked: Asked, page: &mut Page, area: &mut [u8]) -> Option<Watchdog>
    requires { (IfSome w Valid) × (Sized asked) × (4096 ≤ length area.old) }
    ensures { Leaves (heard_of w asked area.old) page.old page.new area.new result }
{
    match asked {
        Asked::New => {
            page.text(b"ok config");
            Some(Watchdog::new())
        }
        Asked::State => match w {
            Some(watchdog) => {
                state(page, watchdog);
                w
            }
            None => {
                page.text(b"no timer");
                None
            }
        },
        Asked::Call { call, cycle, size } => match w {
            Some(watchdog) => Some(called(watchdog, call, cycle, page, &mut area[..size])),
            None => {
                page.text(b"no timer");
                None
            }
        },
    }
}

// Answers a wdt line from the place after its name.
pub fn wdt_line(
    w: Option<Watchdog>,
    page: &mut Page,
    nth: u64,
    line: &[u8],
    at: usize,
    area: &mut [u8],
) -> Option<Watchdog>
    requires { (IfSome w Valid) × (4096 ≤ length area.old) }
    ensures { Leaves (wdt_line w nth line.now at area.old) page.old page.new area.new result }
{
    match Asked::of(line, at) {
        Ok(asked) => heard(w, asked, page, area),
        Err(why) => {
            page.unreadable(nth, why);
            w
        }
    }
}
