// What halts the timer's counter, or lets it go on: sleep, power reduction, TSM; and the prescaler's reset.

#![tactic(auto)]

ghost use Rattle.passage.specs.Passage.{ticks};
ghost use Rattle.counter.specs.Valid.{Valid};
ghost use Rattle.answers.specs.Answers.{Tells};
ghost use Rattle.timer.specs.Calls.{answered};
ghost use Rattle.timer.specs.declared.calls.Call.{Call};

use answers::refusals::refusal;
use answers::{Answer, Outcome, done, refused};
use counter::state::Timer;
use time::units::Cycle;

// Sleep in a mode, which may halt the counter.
pub fn sleep(t: Timer, mode: u8, cycle: Cycle, area: &mut [u8]) -> Outcome
    requires { Valid t }
    ensures { Tells (answered ticks t (Call.Sleep mode) cycle.0 area.old) result area.new }
{
    let halts = t.halts;
    let wrong = 7 < mode;
    let halting = t.halts_in(mode % 8);
    let n = refusal(t, cycle, false, wrong, true, halts.asleep & halting);
    if n != 0 {
        return refused(t, n);
    }
    if halting {
        return done(t.sync(cycle).asleep(cycle), cycle, Answer::Done);
    }
    done(t, cycle, Answer::Done)
}

// Wake: a halted counter goes on.
pub fn wake(t: Timer, cycle: Cycle, area: &mut [u8]) -> Outcome
    requires { Valid t }
    ensures { Tells (answered ticks t Call.Wake cycle.0 area.old) result area.new }
{
    let n = refusal(t, cycle, false, false, true, false);
    if n != 0 {
        return refused(t, n);
    }
    let halts = t.halts;
    if halts.asleep {
        return done(t.awake(cycle), cycle, Answer::Done);
    }
    done(t, cycle, Answer::Done)
}

// The power reduction register takes a mask; the timer obeys its bit.
pub fn reduce(t: Timer, mask: u16, cycle: Cycle, area: &mut [u8]) -> Outcome
    requires { Valid t }
    ensures { Tells (answered ticks t (Call.Reduce mask) cycle.0 area.old) result area.new }
{
    let n = refusal(t, cycle, false, false, true, false);
    if n != 0 {
        return refused(t, n);
    }
    let config = t.config;
    let halts = t.halts;
    let on = mask & config.prr != 0;
    if on != halts.reduced {
        return done(t.sync(cycle).reduced(on), cycle, Answer::Done);
    }
    done(t, cycle, Answer::Done)
}

// TSM takes a level.
pub fn tsm(t: Timer, level: u8, cycle: Cycle, area: &mut [u8]) -> Outcome
    requires { Valid t }
    ensures { Tells (answered ticks t (Call.Tsm level) cycle.0 area.old) result area.new }
{
    let halts = t.halts;
    let on = level == 1;
    let changes = on != halts.tsm;
    let n = refusal(t, cycle, false, 1 < level, true, halts.asleep & changes);
    if n != 0 {
        return refused(t, n);
    }
    if changes {
        return done(t.sync(cycle).with_tsm(on, cycle), cycle, Answer::Done);
    }
    done(t, cycle, Answer::Done)
}

// Prescalers are reset, the timer's own if the mask names its group.
pub fn prescale(t: Timer, mask: u8, cycle: Cycle, area: &mut [u8]) -> Outcome
    requires { Valid t }
    ensures { Tells (answered ticks t (Call.Prescale mask) cycle.0 area.old) result area.new }
{
    let config = t.config;
    let halts = t.halts;
    let own = mask & config.group != 0;
    let n = refusal(t, cycle, false, false, true, halts.asleep & own);
    if n != 0 {
        return refused(t, n);
    }
    if own {
        return done(t.sync(cycle).prescaled(cycle), cycle, Answer::Done);
    }
    done(t, cycle, Answer::Done)
}
