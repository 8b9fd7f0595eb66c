// Register access: what a program reads and writes, TIFR and TIMSK among it.

#![tactic(auto)]

ghost use Rattle.std.specs.Prelude.{◌≡◌};
ghost use Rattle.passage.specs.Passage.{ticks};
ghost use Rattle.counter.specs.Registers.{is_high};
ghost use Rattle.counter.specs.Valid.{Valid};
ghost use Rattle.answers.specs.Answers.{Tells};
ghost use Rattle.timer.specs.Calls.{answered};
ghost use Rattle.timer.specs.declared.calls.Call.{Call};

use answers::refusals::refusal;
use answers::{Answer, Outcome, done, logged, refused};
use counter::state::Timer;
use time::units::Cycle;

// The place of a high byte.
pub fn is_high(place: u8) -> bool
    ensures { result ≡ is_high place }
{
    (place <= 9) & (place % 2 == 1)
}

// Yields a register's byte as a program reads it.
pub fn read(t: Timer, address: u16, cycle: Cycle, area: &mut [u8]) -> Outcome
    requires { Valid t }
    ensures { Tells (answered ticks t (Call.Read address) cycle.0 area.old) result area.new }
{
    let config = t.config;
    let place = config.place(address);
    let high = is_high(place);
    let n = refusal(t, cycle, 13 <= place, false, !high, false);
    if n != 0 {
        return refused(t, n);
    }
    if high {
        let r = reading::read(t, place);
        let u = r.timer;
        return done(u, cycle, Answer::Value(r.value));
    }
    let r = reading::read(t.sync(cycle), place);
    let u = r.timer;
    done(u, cycle, Answer::Value(r.value))
}

// Yields a register's byte and leaves TEMP.
pub fn peek(t: Timer, address: u16, cycle: Cycle, area: &mut [u8]) -> Outcome
    requires { Valid t }
    ensures { Tells (answered ticks t (Call.Peek address) cycle.0 area.old) result area.new }
{
    let config = t.config;
    let place = config.place(address);
    let n = refusal(t, cycle, 13 <= place, false, true, false);
    if n != 0 {
        return refused(t, n);
    }
    let s = t.sync(cycle);
    done(s, cycle, Answer::Value(reading::peek(s, place)))
}

// A register's byte is written.
pub fn write(t: Timer, address: u16, value: u8, cycle: Cycle, area: &mut [u8]) -> Outcome
    requires { Valid t }
    ensures { Tells (answered ticks t (Call.Write address value) cycle.0 area.old) result area.new }
{
    let config = t.config;
    let place = config.place(address);
    let high = is_high(place);
    let n = refusal(t, cycle, 13 <= place, false, !high, false);
    if n != 0 {
        return refused(t, n);
    }
    if high | ((place == 12) & !t.immediate()) {
        return logged(t, t.write(place, value, cycle), cycle, area);
    }
    logged(t, t.sync(cycle).write(place, value, cycle), cycle, area)
}

// Yields TIFR.
pub fn tifr(t: Timer, cycle: Cycle, area: &mut [u8]) -> Outcome
    requires { Valid t }
    ensures { Tells (answered ticks t Call.Tifr cycle.0 area.old) result area.new }
{
    let n = refusal(t, cycle, false, false, true, false);
    if n != 0 {
        return refused(t, n);
    }
    let flags = t.flags;
    done(t, cycle, Answer::Value(flags.tifr))
}

// Yields TIMSK.
pub fn timsk(t: Timer, cycle: Cycle, area: &mut [u8]) -> Outcome
    requires { Valid t }
    ensures { Tells (answered ticks t Call.Timsk cycle.0 area.old) result area.new }
{
    let n = refusal(t, cycle, false, false, true, false);
    if n != 0 {
        return refused(t, n);
    }
    let flags = t.flags;
    done(t, cycle, Answer::Value(flags.timsk))
}

// Ones written to TIFR clear its bits.
pub fn write_tifr(t: Timer, ones: u8, cycle: Cycle, area: &mut [u8]) -> Outcome
    requires { Valid t }
    ensures { Tells (answered ticks t (Call.WriteTifr ones) cycle.0 area.old) result area.new }
{
    let n = refusal(t, cycle, false, false, true, false);
    if n != 0 {
        return refused(t, n);
    }
    done(t.with_tifr(ones), cycle, Answer::Done)
}

// TIMSK is written.
pub fn write_timsk(t: Timer, mask: u8, cycle: Cycle, area: &mut [u8]) -> Outcome
    requires { Valid t }
    ensures { Tells (answered ticks t (Call.WriteTimsk mask) cycle.0 area.old) result area.new }
{
    let n = refusal(t, cycle, false, false, true, false);
    if n != 0 {
        return refused(t, n);
    }
    done(t.with_timsk(mask), cycle, Answer::Done)
}
