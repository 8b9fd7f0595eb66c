// Edges that do something: a capture, which changes ICRn and TIFR, and a tick of the T pin.

ghost use Rattle.std.specs.Prelude.{◌≤◌, ◌≡◌, true, false};
ghost use Rattle.held.specs.Held.{Kept};
ghost use Rattle.held.specs.Reply.{Serves};
ghost use Rattle.serving.specs.Asked.{call_of, answered_to};
ghost use Rattle.serving.specs.Looking.{LeftFor};
ghost use Rattle.renewing.specs.Edges.{catches_of, caught_in, ticked_in};

use crate::stands::{down_in, top_in};
use capture::captured;
use counter::state::Timer;
use held::reply::Reply;
use held::state::Held;
use serving::asked::Asked;
use serving::asks::edge_captures;
use serving::looking::passed;
use time::clock::Clock;
use time::units::Cycle;
use wave::count::Counter;

// Does a call that is left, an edge (9) or the comparator's output (10), capture.
pub fn catches(t: Timer, asked: Asked) -> bool
    ensures { result ≡ catches_of t asked }
{
    (asked.kind == 10) | edge_captures(t, asked.pin, asked.value)
}

// What a capture changes of a held timer, and the reply.
#[derive(Clone, Copy)]
pub struct Caught {
    pub counter: Counter,
    pub clock: Clock,
    pub icr: u32,
    pub tifr: u8,
    pub reply: Reply,
}

// A capture, refused with 8 where its records do not fit. ICRn is not TOP, so what is kept stands.
pub fn catching(h: Held, asked: Asked, area: &mut [u8]) -> Caught
    requires { (Kept h) × (LeftFor h (call_of asked) asked.cycle) × (9 ≤ asked.kind) × (asked.kind ≤ 10) × (catches_of h.timer asked ≡ true) }
    ensures { Serves (answered_to h.timer (call_of asked) asked.cycle area.old) (caught_in h result) result.reply area.new }
{
    let t = h.timer;
    let w = captured(passed(h, true, asked.cycle), Cycle(asked.cycle));
    let u = w.timer;
    let log = w.log;
    if log.write(area, 0) {
        let counter = u.counter;
        let clock = u.clock;
        let registers = u.registers;
        let flags = u.flags;
        Caught {
            counter,
            clock,
            icr: registers.icr,
            tifr: flags.tifr,
            reply: Reply::new(0, 0, 0, log.len, h.next, h.flags),
        }
    } else {
        let counter = t.counter;
        let clock = t.clock;
        let registers = t.registers;
        let flags = t.flags;
        Caught {
            counter,
            clock,
            icr: registers.icr,
            tifr: flags.tifr,
            reply: Reply::turned(8),
        }
    }
}

// What a tick of the T pin changes of a held timer, and the reply.
#[derive(Clone, Copy)]
pub struct Ticked {
    pub timer: Timer,
    pub top: u32,
    pub down: bool,
    pub reply: Reply,
}

// A tick of the T pin, refused with 8 where its records do not fit. No event is to come of such a clock; TOP may be loaded, and the count may turn.
pub fn ticking(h: Held, asked: Asked, area: &mut [u8]) -> Ticked
    requires { (Kept h) × (LeftFor h (call_of asked) asked.cycle) × (9 ≤ asked.kind) × (asked.kind ≤ 10) × (catches_of h.timer asked ≡ false) }
    ensures { Serves (answered_to h.timer (call_of asked) asked.cycle area.old) (ticked_in h result) result.reply area.new }
{
    let t = h.timer;
    let scene = h.scene;
    let cycle = Cycle(asked.cycle);
    let w = t.synced(cycle).tick(cycle);
    let u = w.timer;
    let log = w.log;
    if log.write(area, 0) {
        let counter = u.counter;
        let ocr = u.ocr;
        Ticked {
            timer: u.accepted(cycle),
            top: top_in(scene.follows, h.top, ocr),
            down: down_in(scene.kind, counter),
            reply: Reply::new(0, 0, 0, log.len, h.next, h.flags),
        }
    } else {
        Ticked {
            timer: t,
            top: h.top,
            down: h.down,
            reply: Reply::turned(8),
        }
    }
}
