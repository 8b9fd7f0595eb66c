// An advance that is not struck from what is kept: of a count that falls, or beside a match that is blocked, or where an area may end. No control register changes, so the scene stands.

ghost use Rattle.std.specs.Prelude.{ℕ, ◌≡◌};
ghost use Rattle.passage.specs.Passage.{ticks};
ghost use Rattle.timer.specs.Calls.{answered};
ghost use Rattle.timer.specs.declared.calls.Call.{Call};
ghost use Rattle.held.specs.Held.{Kept};
ghost use Rattle.held.specs.Reply.{Serves};
ghost use Rattle.renewing.specs.Onward.{went_in};

use crate::stands::{down_in, top_in};
use answers::refusals::late;
use counter::state::Timer;
use held::reply::Reply;
use held::state::{Held, foreseen};
use tick::setting::Moving;
use time::clock::Clock;
use time::units::Cycle;

// What such an advance changes of a held timer, and the reply.
#[derive(Clone, Copy)]
pub struct Went {
    pub moving: Moving,
    pub clock: Clock,
    pub next: u64,
    pub top: u32,
    pub flags: u8,
    pub shift: u8,
    pub down: bool,
    pub reply: Reply,
}

// Time passes up to a cycle, or to the first tick whose records do not fit.
pub fn going(h: Held, cycle: u64, area: &mut [u8]) -> Went
    requires { Kept h }
    ensures { Serves (answered ticks h.timer Call.Advance cycle area.old) (went_in h result) result.reply area.new }
{
    let t = h.timer;
    let n = late(t, Cycle(cycle));
    if n != 0 {
        let clock = t.clock;
        return Went {
            moving: t.moving(),
            clock,
            next: h.next,
            top: h.top,
            flags: h.flags,
            shift: h.shift,
            down: h.down,
            reply: Reply::turned(n),
        };
    }
    let a = t.work(Cycle(cycle), area);
    let m = a.moving;
    let sync = a.sync;
    let u = t.settled(m).synced(sync);
    let scene = h.scene;
    let counter = m.counter;
    let ocr = m.ocr;
    let clock = u.clock;
    let top = top_in(scene.follows, h.top, ocr);
    let down = down_in(scene.kind, counter);
    let e = foreseen(scene, top, down, u);
    let reply = if a.paused {
        Reply::new(0, 4, sync.0, a.written, e.next, e.flags)
    } else {
        Reply::new(0, 6, 0, a.written, e.next, e.flags)
    };
    Went {
        moving: m,
        clock,
        next: e.next,
        top,
        flags: e.flags,
        shift: e.shift,
        down,
        reply,
    }
}
