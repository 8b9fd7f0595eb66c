// Calls that leave what is kept of a timer as it is: what they change of it, and the reply.

ghost use Rattle.std.specs.Prelude.{ℕ, true, cond, ◌≡◌, eqb};
ghost use Rattle.held.specs.Held.{Kept, never};
ghost use Rattle.held.specs.Quick.{Passing};
ghost use Rattle.serving.specs.Asked.{call_of};
ghost use Rattle.serving.specs.Looking.{refused_by, passed_of, stays_of, yielding, reading_of, flagged_of, routing_of, work_of, Looks, LooksFor};

use crate::asked::{Asked, Wanted};
use crate::asks::{Asks, edge_ticks, tests};
use counter::state::{Flags, Timer};
use held::quick::stilling;
use held::reply::Reply;
use held::state::{Held, NEVER};
use reading::{peek, word};
use time::clock::Clock;
use time::units::Cycle;
use timer::calls::Call;
use wave::count::Counter;

// The refusal's number, 0 for none: the next event is the one that is kept.
fn refusal(a: Asks, latest: Cycle, next: u64, cycle: u64) -> u8
    ensures { result ≡ refused_by a latest.0 next cycle }
{
    let n = Cycle(cycle).refusal(latest);
    if n != 0 {
        n
    } else if a.absent {
        4
    } else if a.wrong {
        5
    } else if a.tested & (next <= cycle) {
        6
    } else if a.halted {
        7
    } else {
        0
    }
}

// Does an accepted call leave what is kept: it reads, or turns nothing.
fn stays(t: Timer, syncs: bool, c: Call) -> bool
    ensures { result ≡ stays_of t syncs c }
{
    let halts = t.halts;
    match c {
        Call::Advance => false,
        Call::Next => true,
        Call::Read(address) => true,
        Call::Peek(address) => true,
        Call::Write(address, value) => false,
        Call::Tifr => true,
        Call::Timsk => true,
        Call::WriteTifr(ones) => true,
        Call::WriteTimsk(mask) => true,
        Call::Edge(pin, level) => !syncs & !edge_ticks(t, pin, level),
        Call::Output(level) => !syncs,
        Call::Route(level) => true,
        Call::Sleep(mode) => !syncs,
        Call::Wake => !halts.asleep,
        Call::Reduce(mask) => !syncs,
        Call::Tsm(level) => !syncs,
        Call::Prescale(mask) => !syncs,
        Call::Reset => false,
    }
}

// The timer whose time has passed below the next event, where the call lets it.
pub fn passed(h: Held, syncs: bool, cycle: u64) -> Timer
    requires { syncs ≡ true → Passing h.timer.counter h.timer.clock h.shift h.down cycle }
    ensures { result ≡ passed_of h syncs cycle }
{
    let t = h.timer;
    if syncs {
        let s = stilling(t.counter, t.clock, h.shift, h.down, cycle);
        let counter = s.counter;
        let clock = s.clock;
        let mut u = t;
        u.counter = counter;
        u.clock = clock;
        u
    } else {
        t
    }
}

// What such a call yields, with the number that says what that is (`Reply`), and what it changes.
#[derive(Clone, Copy)]
struct Work {
    what: u8,
    value: u64,
    temp: u8,
    flags: Flags,
    routed: bool,
}

// A call that yields, and changes nothing.
fn yielding(t: Timer, what: u8, value: u64) -> Work
    ensures { result ≡ yielding t what value }
{
    let registers = t.registers;
    let halts = t.halts;
    let flags = t.flags;
    Work {
        what,
        value,
        temp: registers.temp,
        flags,
        routed: halts.routed,
    }
}

// A register's byte as a program reads it: `read` of the crate reading, without the timer.
fn reads(t: Timer, place: u8) -> Work
    ensures { result ≡ reading_of t place }
{
    let config = t.config;
    let registers = t.registers;
    if (place == 1) | (place == 9) {
        return yielding(t, 1, registers.temp as u64);
    }
    let mut w = yielding(t, 1, peek(t, place) as u64);
    if ((place == 0) | (place == 8)) & config.wide {
        w.temp = (word(t, place) / 256 % 256) as u8;
    }
    w
}

// The next event.
fn nexts(t: Timer, next: u64) -> Work
    ensures { result ≡ cond (eqb next never) (yielding t 3 0) (yielding t 2 next) }
{
    if next == NEVER {
        yielding(t, 3, 0)
    } else {
        yielding(t, 2, next)
    }
}

// TIFR or TIMSK is written.
fn flagged(t: Timer, tifr: u8, timsk: u8) -> Work
    ensures { result ≡ flagged_of t tifr timsk }
{
    let flags = Flags { tifr, timsk };
    let mut w = yielding(t, 0, 0);
    w.flags = flags;
    w
}

// The comparator is routed to the capture, or not; only a timer with ICR obeys.
fn routes(t: Timer, level: u8) -> Work
    ensures { result ≡ routing_of t (cond t.config.icr.present (eqb level 1) t.halts.routed) }
{
    let config = t.config;
    let icr = config.icr;
    let mut w = yielding(t, 0, 0);
    if icr.present {
        w.routed = level == 1;
    }
    w
}

// What such a call works, of the timer whose time has passed.
fn works(t: Timer, c: Call, next: u64) -> Work
    ensures { result ≡ work_of t c next }
{
    let config = t.config;
    let flags = t.flags;
    match c {
        Call::Advance => yielding(t, 0, 0),
        Call::Next => nexts(t, next),
        Call::Read(address) => reads(t, config.place(address)),
        Call::Peek(address) => yielding(t, 1, peek(t, config.place(address)) as u64),
        Call::Write(address, value) => yielding(t, 0, 0),
        Call::Tifr => yielding(t, 1, flags.tifr as u64),
        Call::Timsk => yielding(t, 1, flags.timsk as u64),
        Call::WriteTifr(ones) => flagged(t, flags.tifr & (255 - ones), flags.timsk),
        Call::WriteTimsk(mask) => flagged(t, flags.tifr, mask),
        Call::Edge(pin, level) => yielding(t, 0, 0),
        Call::Output(level) => yielding(t, 0, 0),
        Call::Route(level) => routes(t, level),
        Call::Sleep(mode) => yielding(t, 0, 0),
        Call::Wake => yielding(t, 0, 0),
        Call::Reduce(mask) => yielding(t, 0, 0),
        Call::Tsm(level) => yielding(t, 0, 0),
        Call::Prescale(mask) => yielding(t, 0, 0),
        Call::Reset => yielding(t, 0, 0),
    }
}

// The parts of a timer that such a call may change, the reply, and whether the call is done: one that is not has changed nothing.
#[derive(Clone, Copy)]
pub struct Looked {
    pub done: bool,
    pub counter: Counter,
    pub clock: Clock,
    pub temp: u8,
    pub flags: Flags,
    pub routed: bool,
    pub reply: Reply,
}

// Nothing is changed.
fn nothing(done: bool, t: Timer, reply: Reply) -> Looked
    ensures { result ≡ record { done = done; counter = t.counter; clock = t.clock; temp = t.registers.temp; flags = t.flags; routed = t.halts.routed; reply = reply } }
{
    let registers = t.registers;
    let halts = t.halts;
    let counter = t.counter;
    let clock = t.clock;
    let flags = t.flags;
    Looked {
        done,
        counter,
        clock,
        temp: registers.temp,
        flags,
        routed: halts.routed,
        reply,
    }
}

// An accepted call, of the timer whose time has passed.
fn accepted(t: Timer, w: Work, cycle: u64, reply: Reply) -> Looked
    ensures { result ≡ record { done = true; counter = t.counter; clock = record { sync = t.clock.sync; origin = t.clock.origin; latest = record { 0 = cycle } }; temp = w.temp; flags = w.flags; routed = w.routed; reply = reply } }
{
    let counter = t.counter;
    let clock = t.clock;
    let sync = clock.sync;
    let origin = clock.origin;
    let flags = w.flags;
    Looked {
        done: true,
        counter,
        clock: Clock {
            sync,
            origin,
            latest: Cycle(cycle),
        },
        temp: w.temp,
        flags,
        routed: w.routed,
        reply,
    }
}

// A call from what is kept: refused, or done where it leaves that; else nothing is changed.
fn calling(h: Held, c: Call, cycle: u64) -> Looked
    requires { Kept h }
    ensures { Looks h c cycle result }
{
    let t = h.timer;
    let clock = t.clock;
    let a = tests(t, c);
    let n = refusal(a, clock.latest, h.next, cycle);
    if n != 0 {
        return nothing(true, t, Reply::turned(n));
    }
    if stays(t, a.syncs, c) {
        let s = passed(h, a.syncs, cycle);
        let w = works(s, c, h.next);
        let reply = Reply::new(0, w.what, w.value, 0, h.next, h.flags);
        return accepted(s, w, cycle, reply);
    }
    nothing(false, t, Reply::turned(0))
}

// The same by its number.
pub fn looking(h: Held, asked: Asked) -> Looked
    requires { Kept h }
    ensures { LooksFor h (call_of asked) asked.cycle result }
{
    let t = h.timer;
    let wanted = asked.call();
    match wanted {
        Wanted::Known(c) => calling(h, c, asked.cycle),
        Wanted::Unknown => nothing(true, t, Reply::turned(255)),
    }
}
