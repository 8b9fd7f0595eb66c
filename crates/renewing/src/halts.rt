// What halts the counter, lets it go on, or starts its prescaler anew: the setting stays, so the next event is reckoned from the scene that is kept.

ghost use Rattle.std.specs.Prelude.{◌+◌, ◌-◌, ◌≤◌, ◌<◌, ◌^◌, ◌≡◌, List, ℕ};
ghost use Rattle.held.specs.Held.{Kept};
ghost use Rattle.held.specs.Reply.{Serves};
ghost use Rattle.serving.specs.Asked.{call_of, answered_to};
ghost use Rattle.serving.specs.Looking.{LeftFor};
ghost use Rattle.renewing.specs.Halts.{turned_of, turned_in};

use counter::state::Timer;
use held::reply::Reply;
use held::state::{Held, foreseen};
use serving::asked::Asked;
use serving::looking::passed;
use time::clock::Clock;
use time::halts::Halts;
use time::units::Cycle;
use wave::count::Counter;

// What such a call changes of a held timer, and the reply.
#[derive(Clone, Copy)]
pub struct Turned {
    pub counter: Counter,
    pub clock: Clock,
    pub halts: Halts,
    pub next: u64,
    pub flags: u8,
    pub shift: u8,
    pub reply: Reply,
}

// The call's work, of the timer whose time has passed, by its number: 12 sleeps, 13 wakes, 14 reduces, 15 is TSM, 16 the prescaler.
fn made(s: Timer, asked: Asked) -> Timer
    requires { asked.kind ≡ 13 → (s.halts.since.0 ≤ asked.cycle) × (s.clock.origin.0 + (asked.cycle - s.halts.since.0) < 2 ^ 64) }
    ensures { result ≡ turned_of s asked }
{
    let kind = asked.kind;
    let config = s.config;
    let cycle = Cycle(asked.cycle);
    match kind {
        12 => s.asleep(cycle),
        13 => s.awake(cycle),
        14 => s.reduced(asked.address & config.prr != 0),
        15 => s.with_tsm(asked.value == 1, cycle),
        _ => s.prescaled(cycle),
    }
}

// A call that turns something; before a wake no time passes.
pub fn turning(h: Held, asked: Asked) -> Turned
    requires { (Kept h) × (LeftFor h (call_of asked) asked.cycle) × (12 ≤ asked.kind) × (asked.kind ≤ 16) }
    ensures { (area : List ℕ) → Serves (answered_to h.timer (call_of asked) asked.cycle area) (turned_in h result) result.reply area }
{
    let s = passed(h, asked.kind != 13, asked.cycle);
    let u = made(s, asked).accepted(Cycle(asked.cycle));
    let e = foreseen(h.scene, h.top, h.down, u);
    let counter = u.counter;
    let clock = u.clock;
    let halts = u.halts;
    Turned {
        counter,
        clock,
        halts,
        next: e.next,
        flags: e.flags,
        shift: e.shift,
        reply: Reply::new(0, 0, 0, 0, e.next, e.flags),
    }
}
