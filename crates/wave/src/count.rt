// How the count goes: TOP, matches, overflow, loads, the next count and direction.

ghost use Rattle.std.specs.Prelude.{◌≡◌, ◌+◌, ◌-◌, ◌<◌, ◌≤◌, ◌&&◌, ◌⊎◌, pos, negsuc, if◌then◌else◌, nat_le};
ghost use Rattle.wave.specs.Count.{negative, top_of, falls, hits, overflows, loads, next_count, next_direction, counted, Turns};
ghost use Rattle.wave.specs.Kinds.{P};

use crate::kinds::{CTC, FAST, FIXED, NORMAL, OCRA, PC, Wave, dual_slope, ends_at_top};
use std::num::wrapping_add_u64;

// TCNTn, the way it goes in P and Q (plus or minus one), whether a write of it blocks the next match, and the counts made
// since the reset.
#[repr(C)]
#[derive(Clone, Copy)]
pub struct Counter {
    pub count: u32,
    pub direction: i32,
    pub blocked: bool,
    pub odometer: u64,
}

// The count with the direction added.
pub fn stepped(count: u32, direction: i32) -> u32
    requires { (count < 65536) × ((direction ≡ pos 1) ⊎ ((direction ≡ negsuc 0) × (0 < count))) }
    ensures { result ≡ (if negative direction then count - 1 else count + 1) }
{
    ((count as i32) + direction) as u32
}

// The odometer n counts on.
pub fn counted(odometer: u64, n: u64) -> u64
    ensures { result ≡ counted odometer n }
{
    wrapping_add_u64(odometer, n)
}

impl Counter {
    // Does a compare match.
    pub fn hits(self, present: bool, compare: u32) -> bool
        ensures { result ≡ hits self present compare }
    {
        !self.blocked & (present & (self.count == compare))
    }
}

impl Wave {
    // TOP, where compare A stands at a.
    pub fn top(self, a: u32) -> u32
        ensures { result ≡ top_of self a }
    {
        let source = self.source;
        match source {
            FIXED => self.fixed,
            OCRA => a,
            _ => self.icr,
        }
    }

    // Does the count fall: P or Q, with the direction down.
    pub fn falls(self, counter: Counter) -> bool
        ensures { result ≡ falls self counter }
    {
        let direction = counter.direction;
        dual_slope(self.kind) & (direction < 0)
    }

    // Does a tick raise TOV: N and C at MAX, F at TOP, P and Q at 0.
    pub fn overflows(self, top: bool, zero: bool, max: bool) -> bool
        ensures { result ≡ overflows self top zero max }
    {
        let kind = self.kind;
        match kind {
            NORMAL..=CTC => max,
            FAST..=FAST => top,
            _ => zero,
        }
    }

    // Does a tick load the buffered compares: F and P at TOP, Q at 0.
    pub fn loads(self, top: bool, zero: bool) -> bool
        ensures { result ≡ loads self top zero }
    {
        let kind = self.kind;
        match kind {
            NORMAL..=CTC => false,
            FAST..=PC => top,
            _ => zero,
        }
    }

    // What a tick adds to the count where nothing turns it: the direction in P and Q, else one.
    pub fn step(self, direction: i32) -> i32
        requires { Turns direction }
        ensures { (negative result ≡ nat_le P self.kind && negative direction) × Turns result }
    {
        let kind = self.kind;
        match kind {
            NORMAL..=FAST => 1,
            _ => direction,
        }
    }

    // The count after a tick.
    #[tactic(auto, unfolding(crate::specs::Count::next_count))]
    pub fn next_count(self, counter: Counter, top: u32) -> u32
        requires { (counter.count ≤ self.max) × (self.max < 65536) × Turns counter.direction }
        ensures { result ≡ next_count self counter top }
    {
        let kind = self.kind;
        let count = counter.count;
        let direction = counter.direction;
        let step = self.step(direction);
        if self.falls(counter) {
            if count == 0 {
                if top == 0 { 0 } else { 1 }
            } else {
                stepped(count, step)
            }
        } else if ends_at_top(kind) & (count == top) {
            match kind {
                NORMAL..=FAST => 0,
                _ => if top == 0 { 0 } else { count - 1 },
            }
        } else if count == self.max {
            0
        } else {
            stepped(count, step)
        }
    }

    // The direction after a tick.
    pub fn next_direction(self, direction: i32, top: bool, zero: bool) -> i32
        ensures { result ≡ next_direction self direction top zero }
    {
        if dual_slope(self.kind) & top {
            -1
        } else if zero {
            1
        } else {
            direction
        }
    }
}
