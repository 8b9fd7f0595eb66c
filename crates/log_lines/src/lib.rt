// Lines on the log that gives its space back. Each puts its answer on a page, without the line feed.

#![tactic(auto)]

mod asked;

ghost use Rattle.std.specs.Prelude.{◌≡◌, ◌<◌, IfOk};
ghost use Rattle.std.specs.Result.{result_unwrap_or};
ghost use Rattle.page.specs.Page.{Puts};
ghost use Rattle.record_ring.specs.Log.{Valid};
ghost use Rattle.log_lines.specs.Logged.{held_of, added_of, shown_of, log_line, Leaves};

use crate::asked::Asked;
use page::Page;
use record_ring::{BYTES, Refusal, Ring};

// The area that the log's records lie in.
pub type Area = [u8; BYTES];

// Keeps the log of a call that was accepted, and puts how many records it holds; where the call was refused the log stays as it was.
#[tactic(auto, unfolding(crate::specs::Logged::held_of, figures::specs::Figures::codes))]
fn kept(ring: Ring, called: Result<Ring, Refusal>, page: &mut Page) -> Ring
    requires { Valid ring × IfOk called Valid }
    ensures ring { result ≡ result_unwrap_or called ring }
    ensures puts { Puts page.old page.new (held_of called) }
    ensures valid { Valid result }
{
    match called {
        Ok(after) => {
            page.number(b"ok held=", after.count() as u64);
            after
        }
        Err(refusal) => {
            page.number(b"refused ", refusal.number() as u64);
            ring
        }
    }
}

// Adds a record, and puts how many are held and the place that it took.
#[tactic(auto, using(page::proofs::Sheets::then), unfolding(crate::specs::Logged::placed_of, figures::specs::Figures::codes))]
fn add(ring: Ring, bytes: [u8; 10], page: &mut Page, area: &mut Area) -> Ring
    requires { Valid ring }
    ensures { Leaves (added_of ring area.old bytes) page.old page.new area.new result }
{
    let called = ring.add(area, bytes);
    let after = kept(ring, called, page);
    if called.is_ok() {
        page.number(b" place=", ring.next as u64);
    }
    after
}

// Puts the ten bytes of a place.
#[tactic(auto, unfolding(records::specs::Records::record_at, figures::specs::Figures::codes))]
fn show(place: usize, page: &mut Page, area: &Area)
    requires { place < 6000 }
    ensures { Puts page.old page.new (shown_of area.now place) }
{
    let start = 10 * place;
    display::answer::bytes(page, b"ok record=", &area[start..start + 10], 10)
}

// Answers a log line from the place after its name.
#[tactic(auto, unfolding(crate::specs::Logged::heard_of, figures::specs::Figures::codes))]
pub fn log_line(
    ring: Ring,
    page: &mut Page,
    nth: u64,
    line: &[u8],
    at: usize,
    area: &mut Area,
) -> Ring
    requires { Valid ring }
    ensures { Leaves (log_line ring nth line.now at area.old) page.old page.new area.new result }
{
    match Asked::of(line, at) {
        Err(why) => {
            page.unreadable(nth, why);
            ring
        }
        Ok(Asked::Add(bytes)) => add(ring, bytes, page, area),
        Ok(Asked::Release(count)) => kept(ring, ring.release(area, count), page),
        Ok(Asked::Read(place)) => {
            show(place, page, area);
            ring
        }
    }
}
