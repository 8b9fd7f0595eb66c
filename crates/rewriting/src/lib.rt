// A register written below the next event: time has passed by what is kept, and what is kept is then worked out anew.

#![tactic(auto)]

ghost use Rattle.std.specs.Prelude.{true, false, ◌≡◌, ◌≤◌, ◌<◌};
ghost use Rattle.held.specs.Held.{Kept};
ghost use Rattle.rewriting.specs.Writing.{Takes, Rewrites};

use answers::{Answer, done, logged, refused};
use held::calls::{Called, holding};
use held::reply::Reply;
use held::state::{Held, held_of};
use serving::looking::passed;
use time::units::Cycle;
use wave::kinds::non_pwm;

// A low byte: it writes no record.
fn committing(h: Held, place: u8, value: u8, cycle: u64, area: &mut [u8]) -> Called
    requires { (Kept h) × (Takes h place cycle) × (place < 10) }
    ensures { Rewrites h place value cycle area.old result area.new }
{
    let s = passed(h, true, cycle);
    holding(done(s.commit(place, value), Cycle(cycle), Answer::Done))
}

// A control register: its records may not fit.
fn controlling(h: Held, place: u8, value: u8, cycle: u64, area: &mut [u8]) -> Called
    requires { (Kept h) × (Takes h place cycle) × (10 ≤ place) × (place < 12) }
    ensures { Rewrites h place value cycle area.old result area.new }
{
    let t = h.timer;
    let w = passed(h, true, cycle).write(place, value, Cycle(cycle));
    let u = w.timer;
    let log = w.log;
    if log.write(area, 0) {
        let held = held_of(u);
        Called {
            held,
            reply: Reply::new(0, 0, 0, log.len, held.next, held.flags),
        }
    } else {
        holding(refused(t, 8))
    }
}

// A force register of its own, before which time passes in N and C alone.
fn forcing(h: Held, value: u8, cycle: u64, area: &mut [u8]) -> Called
    requires { (Kept h) × Takes h 12 cycle }
    ensures { Rewrites h 12 value cycle area.old result area.new }
{
    let t = h.timer;
    let scene = h.scene;
    let s = passed(h, non_pwm(scene.kind), cycle);
    let w = s.write(12, value, Cycle(cycle));
    holding(logged(t, w, Cycle(cycle), area))
}

// Any register but a high byte.
pub fn writing(h: Held, place: u8, value: u8, cycle: u64, area: &mut [u8]) -> Called
    requires { (Kept h) × Takes h place cycle }
    ensures { Rewrites h place value cycle area.old result area.new }
{
    if place < 10 {
        return committing(h, place, value, cycle, area);
    }
    if place < 12 {
        return controlling(h, place, value, cycle, area);
    }
    forcing(h, value, cycle, area)
}
