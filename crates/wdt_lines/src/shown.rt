// What is shown of a watchdog: a call's answer, and the watchdog as it stands.

ghost use Rattle.oscillator.specs.State.{Valid};
ghost use Rattle.page.specs.Page.{Puts};
ghost use Rattle.watchdog.specs.Outcome.{refused, values_of, heard};
ghost use Rattle.wdt_lines.specs.Shown.{event_of, said_of, answer_of, bits_of, state_of};

use display::answer::records;
use oscillator::state::Watchdog;
use page::Page;
use time::units::Cycle;
use watchdog::outcome::{Answer, Outcome, Refusal};

// Puts the next event.
#[tactic(auto, unfolding(crate::specs::Shown::event_of, figures::specs::Figures::codes))]
fn event(page: &mut Page, next: Option<Cycle>)
    ensures { Puts page.old page.new (event_of next) }
{
    match next {
        Some(cycle) => page.number(b" next=", cycle.0),
        None => page.text(b" next=none"),
    }
}

// Puts the cycle where an advance paused, or the value.
#[tactic(auto, unfolding(crate::specs::Shown::said_of, figures::specs::Figures::codes))]
fn said(page: &mut Page, answer: Answer)
    ensures { Puts page.old page.new (said_of 0 (values_of answer)) }
{
    match answer {
        Answer::Value(value) => page.register(b"ok value=", value),
        Answer::Paused(cycle) => page.number(b"paused cycle=", cycle.0),
        Answer::Done => page.text(b"ok value=-"),
        Answer::Next(_) => page.text(b"ok value=-"),
    }
}

// Puts a refusal's number, whatever that is.
#[tactic(auto, unfolding(crate::specs::Shown::said_of, figures::specs::Figures::codes))]
pub fn refused(page: &mut Page, number: u8)
    ensures { Puts page.old page.new (said_of number refused) }
{
    page.number(b"refused ", u64::from(number));
}

// Puts a call's answer, or the number of its refusal: of one that is accepted also the next event of the watchdog that it leaves, and the bytes written.
pub fn answer(page: &mut Page, w: Watchdog, r: Result<Outcome, Refusal>, area: &[u8])
    requires { Valid (heard w r area.now).watchdog }
    ensures { Puts page.old page.new (answer_of (heard w r area.now)) }
{
    match r {
        Err(why) => refused(page, why.number()),
        Ok(o) => {
            said(page, o.answer);
            event(page, o.watchdog.next());
            records(page, area, o.written);
        }
    }
}

// Puts the bits of WDTCSR; WDCE as a read at the latest cycle would show it.
#[tactic(auto, using(page::proofs::Sheets::then), unfolding(crate::specs::Shown::bits_of, figures::specs::Figures::codes))]
fn bits(page: &mut Page, w: Watchdog)
    requires { Valid w }
    ensures { Puts page.old page.new (bits_of w) }
{
    let control = w.moving.control;
    page.bit(b" wdif=", control.wdif);
    page.bit(b" wdie=", control.wdie);
    page.bit(b" wdce=", w.moving.window.is_open(w.latest));
    page.bit(b" wde=", control.wde);
    page.number(b" p=", u64::from(control.wdp));
}

// Puts the watchdog as it stands.
#[tactic(auto, using(page::proofs::Sheets::then), unfolding(crate::specs::Shown::state_of, figures::specs::Figures::codes))]
pub fn state(page: &mut Page, w: Watchdog)
    requires { Valid w }
    ensures { Puts page.old page.new (state_of w) }
{
    page.number(b"wdt count=", u64::from(w.moving.count));
    bits(page, w);
    page.number(b" sync=", w.sync.0);
    page.number(b" latest=", w.latest.0);
}
