// An advance over events of a rising count.

#![tactic(auto)]

ghost use Rattle.std.specs.Prelude.{◌≤◌, ◌<◌, ◌^◌, ◌≡◌, true, length};
ghost use Rattle.passage.specs.Passage.{ticks};
ghost use Rattle.timer.specs.Calls.{answered};
ghost use Rattle.timer.specs.declared.calls.Call.{Call};
ghost use Rattle.held.specs.Held.{Kept};
ghost use Rattle.held.specs.Reply.{Serves};
ghost use Rattle.climbing.specs.Rise.{strikes_of, start_of, risen_in};

use held::quick::refusing;
use held::reply::Reply;
use held::state::Held;
use strike::Rise;
use tick::setting::Drives;
use time::units::Cycle;
use wave::count::counted;
use wave::kinds::dual_slope;

// May an advance strike the events from what is kept: the cycle is accepted, the count rises, no match is blocked, and any tick's records fit.
pub fn strikes(kind: u8, blocked: bool, latest: u64, next: u64, cycle: u64, room: usize) -> bool
    ensures { result ≡ strikes_of kind blocked latest next cycle room }
{
    (refusing(false, latest, next, cycle) == 0) & !blocked & !dual_slope(kind) & (110 <= room)
}

// Where the run begins: at the sync cycle, with the ticks before the next event's.
fn start(h: Held) -> Rise
    requires { (h.shift < 64) × (h.timer.clock.sync.0 < h.next) × ((start_of h).gap < 2 ^ 32) }
    ensures { result ≡ start_of h }
{
    let t = h.timer;
    let counter = t.counter;
    let clock = t.clock;
    let sync = clock.sync;
    let ocr = t.ocr;
    let oc = t.oc;
    let drives = t.drives;
    let flags = t.flags;
    Rise {
        next: h.next,
        to: 0,
        count: counter.count,
        gap: ((h.next - 1 - sync.0) >> h.shift) as u32,
        top: h.top,
        ocr,
        oc,
        drives,
        tifr: flags.tifr,
        flags: h.flags,
    }
}

// What such an advance changes of a held timer, and its reply.
#[derive(Clone, Copy)]
pub struct Risen {
    pub count: u32,
    pub odometer: u64,
    pub ocr: [u32; 3],
    pub oc: [u8; 3],
    pub drives: Drives,
    pub tifr: u8,
    pub sync: u64,
    pub latest: u64,
    pub next: u64,
    pub top: u32,
    pub flags: u8,
    pub reply: Reply,
}

// Event after event up to a cycle, or to the first whose records do not fit; then the quiet ticks before it.
pub fn rising(h: Held, cycle: u64, area: &mut [u8]) -> Risen
    requires { (Kept h) × (strikes_of h.scene.kind h.timer.counter.blocked h.timer.clock.latest.0 h.next cycle (length area.old) ≡ true) × (h.next ≤ cycle) }
    ensures { Serves (answered ticks h.timer Call.Advance cycle area.old) (risen_in h result) result.reply area.new }
{
    let t = h.timer;
    let was = t.counter;
    let clock = t.clock;
    let origin = clock.origin;
    let sync = clock.sync;
    let latest = clock.latest;
    let scene = h.scene;
    let e = start(h).rising(scene, h.shift, cycle, area);
    let paused = e.next <= cycle;
    let end = if paused {
        let at = sync.later(Cycle(e.next - (1 << h.shift)));
        at.0
    } else {
        cycle
    };
    let left = ((e.next - 1 - end) >> h.shift) as u32;
    let ticks = ((end - origin.0) >> h.shift) - ((sync.0 - origin.0) >> h.shift);
    let newest = latest.later(Cycle(end));
    let ocr = e.ocr;
    let oc = e.oc;
    let drives = e.drives;
    let reply = if paused {
        Reply::new(0, 4, end, e.to, e.next, e.flags)
    } else {
        Reply::new(0, 6, 0, e.to, e.next, e.flags)
    };
    Risen {
        count: e.count + (e.gap - left),
        odometer: counted(was.odometer, ticks),
        ocr,
        oc,
        drives,
        tifr: e.tifr,
        sync: end,
        latest: newest.0,
        next: e.next,
        top: e.top,
        flags: e.flags,
        reply,
    }
}
