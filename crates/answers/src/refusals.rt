// Calls turned away: numbers 2 to 7, the first that applies.

ghost use Rattle.std.specs.Prelude.{◌≡◌};
ghost use Rattle.counter.specs.Valid.{Valid};
ghost use Rattle.answers.specs.Refusals.{is_due, late, refusal};

use counter::state::Timer;
use time::units::Cycle;

// Does the next event lie at or before a cycle.
pub fn is_due(t: Timer, cycle: Cycle) -> bool
    requires { Valid t }
    ensures { result ≡ is_due t cycle.0 }
{
    if t.running() {
        let at = t.next_cycle();
        at.0 <= cycle.0
    } else {
        false
    }
}

// 2 or 3 where the cycle is too large or too early, else 0.
pub fn late(t: Timer, cycle: Cycle) -> u8
    ensures { result ≡ late t cycle.0 }
{
    let clock = t.clock;
    cycle.refusal(clock.latest)
}

// The refusal's number, 0 for none: the cycle's, then 4 and 5 as told, 6 where the event is to be tested, 7 as told.
pub fn refusal(t: Timer, cycle: Cycle, absent: bool, wrong: bool, tested: bool, halted: bool) -> u8
    requires { Valid t }
    ensures { result ≡ refusal t cycle.0 absent wrong tested halted }
{
    let n = late(t, cycle);
    if n != 0 {
        n
    } else if absent {
        4
    } else if wrong {
        5
    } else if tested & is_due(t, cycle) {
        6
    } else if halted {
        7
    } else {
        0
    }
}
