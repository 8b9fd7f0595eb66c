// The bench timer: any call, with anything, gets the result or one numbered refusal. Pins and comparator are answered here.

#![tactic(auto)]

ghost use Rattle.std.specs.Prelude.{◌≡◌};
ghost use Rattle.passage.specs.Passage.{ticks};
ghost use Rattle.counter.specs.Valid.{Valid};
ghost use Rattle.answers.specs.Answers.{Tells};
ghost use Rattle.timer.specs.Calls.{is_pin, answered};

use access::{peek, read, tifr, timsk, write, write_tifr, write_timsk};
use answers::refusals::refusal;
use answers::{Answer, Outcome, done, logged, refused};
use capture::{captured, captures, ticks_on};
use config::Wire;
use counter::state::Timer;
use elapse::{advance, next, reset};
use halting::{prescale, reduce, sleep, tsm, wake};
use time::units::Cycle;
use timer::calls::Call;

// Is a pin the one wired.
pub fn is_pin(wire: Wire, pin: u8) -> bool
    ensures { result ≡ is_pin wire pin }
{
    wire.present & (wire.pin == pin)
}

// An edge of a pin: a capture, a tick, or nothing.
pub fn edge(t: Timer, pin: u8, level: u8, cycle: Cycle, area: &mut [u8]) -> Outcome
    requires { Valid t }
    ensures { Tells (answered ticks t (Call.Edge pin level) cycle.0 area.old) result area.new }
{
    let n = refusal(t, cycle, false, 1 < level, true, false);
    if n != 0 {
        return refused(t, n);
    }
    let config = t.config;
    let icr = config.icr;
    let icp = icr.wire;
    let tpin = config.t;
    let halts = t.halts;
    if is_pin(icp, pin) & !halts.routed & captures(t, level) {
        return logged(t, captured(t.sync(cycle), cycle), cycle, area);
    }
    if is_pin(tpin, pin) & ticks_on(t, level) {
        return logged(t, t.synced(cycle).tick(cycle), cycle, area);
    }
    done(t, cycle, Answer::Done)
}

// The comparator's output takes a level: a capture while it is routed here.
pub fn output(t: Timer, level: u8, cycle: Cycle, area: &mut [u8]) -> Outcome
    requires { Valid t }
    ensures { Tells (answered ticks t (Call.Output level) cycle.0 area.old) result area.new }
{
    let n = refusal(t, cycle, false, 1 < level, true, false);
    if n != 0 {
        return refused(t, n);
    }
    let halts = t.halts;
    if halts.routed & captures(t, level) {
        return logged(t, captured(t.sync(cycle), cycle), cycle, area);
    }
    done(t, cycle, Answer::Done)
}

// The comparator's output is routed to the capture, or not; only a timer with ICR obeys.
pub fn route(t: Timer, level: u8, cycle: Cycle, area: &mut [u8]) -> Outcome
    requires { Valid t }
    ensures { Tells (answered ticks t (Call.Route level) cycle.0 area.old) result area.new }
{
    let n = refusal(t, cycle, false, 1 < level, true, false);
    if n != 0 {
        return refused(t, n);
    }
    let config = t.config;
    let icr = config.icr;
    if icr.present {
        return done(t.routed(level == 1), cycle, Answer::Done);
    }
    done(t, cycle, Answer::Done)
}

// Hands a call to the function of its name.
pub fn call(t: Timer, call: Call, cycle: Cycle, area: &mut [u8]) -> Outcome
    requires { Valid t }
    ensures { Tells (answered ticks t call cycle.0 area.old) result area.new }
{
    match call {
        Call::Advance => advance(t, cycle, area),
        Call::Next => next(t, cycle, area),
        Call::Read(address) => read(t, address, cycle, area),
        Call::Peek(address) => peek(t, address, cycle, area),
        Call::Write(address, value) => write(t, address, value, cycle, area),
        Call::Tifr => tifr(t, cycle, area),
        Call::Timsk => timsk(t, cycle, area),
        Call::WriteTifr(ones) => write_tifr(t, ones, cycle, area),
        Call::WriteTimsk(mask) => write_timsk(t, mask, cycle, area),
        Call::Edge(pin, level) => edge(t, pin, level, cycle, area),
        Call::Output(level) => output(t, level, cycle, area),
        Call::Route(level) => route(t, level, cycle, area),
        Call::Sleep(mode) => sleep(t, mode, cycle, area),
        Call::Wake => wake(t, cycle, area),
        Call::Reduce(mask) => reduce(t, mask, cycle, area),
        Call::Tsm(level) => tsm(t, level, cycle, area),
        Call::Prescale(mask) => prescale(t, mask, cycle, area),
        Call::Reset => reset(t, cycle, area),
    }
}
