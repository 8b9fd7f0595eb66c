// Quiet ticks ahead, and the count after them.

ghost use Rattle.std.specs.Prelude.{◌≡◌, ◌+◌, ◌<◌, ◌≤◌, min, true, cond};
ghost use Rattle.wave.specs.Count.{Turns, falls};
ghost use Rattle.wave.specs.Distance.{space, ahead, reach, gap, sought_at, searched, moved, skipped};

use crate::count::{Counter, counted};
use crate::kinds::Wave;

// What a search found: the quiet ticks before the next event's, and how many compares it looked at.
#[derive(Clone, Copy)]
pub struct Search {
    pub gap: u32,
    pub looked: u8,
}

pub fn smaller(a: u32, b: u32) -> u32
    ensures { result ≡ min a b }
{
    if a <= b { a } else { b }
}

// The gap with one more compare: fewer ticks where it lies ahead and nearer. The way to one that lies behind wraps, and is longer than any gap.
fn nearer(down: bool, count: u32, compare: u32, gap: u32) -> u32
    requires { gap ≤ reach down count }
    ensures { result ≡ min gap (ahead true down count compare gap) }
{
    let way = if down {
        std::num::wrapping_sub_u32(count, compare)
    } else {
        std::num::wrapping_sub_u32(compare, count)
    };
    smaller(gap, way)
}

// The count n ticks on.
pub fn moved(down: bool, count: u32, n: u32) -> u32
    requires { cond down (n ≤ count) (count + n < 65536) }
    ensures { result ≡ moved down count n }
{
    if down { count - n } else { count + n }
}

impl Wave {
    // Ticks before the count turns or wraps: to 0 falling, else to TOP, or to MAX from above TOP.
    pub fn space(self, down: bool, count: u32, top: u32) -> u32
        requires { count ≤ self.max }
        ensures { result ≡ space down count top self.max }
    {
        if down {
            count
        } else if count <= top {
            top - count
        } else {
            self.max - count
        }
    }

    // The compares that the timer has, in the order A, B, C: the first that is one tick off ends it.
    fn seek(self, down: bool, count: u32, all: u32, ocr: [u32; 3]) -> Search
        requires { all ≤ reach down count }
        ensures { result ≡ sought_at self down count ocr all }
    {
        let mut gap = all;
        let mut looked = 0;
        if self.a {
            looked += 1;
            if ocr[0] == count {
                return Search { gap: 0, looked };
            }
            gap = nearer(down, count, ocr[0], gap);
        }
        if self.b {
            looked += 1;
            if ocr[1] == count {
                return Search { gap: 0, looked };
            }
            gap = nearer(down, count, ocr[1], gap);
        }
        if self.c {
            looked += 1;
            gap = nearer(down, count, ocr[2], gap);
        }
        Search { gap, looked }
    }

    // The search for the nearest compare. A falling and a rising count have a search each, so that neither asks again which way it goes.
    pub fn search(self, counter: Counter, ocr: [u32; 3]) -> Search
        requires { counter.count ≤ self.max }
        ensures { result ≡ searched self counter ocr }
    {
        let count = counter.count;
        let down = self.falls(counter);
        let all = self.space(down, count, self.top(ocr[0]));
        if down {
            self.seek(true, count, all, ocr)
        } else {
            self.seek(false, count, all, ocr)
        }
    }

    // Quiet ticks before the next event's: the distance is one more.
    pub fn gap(self, counter: Counter, ocr: [u32; 3]) -> u32
        requires { counter.count ≤ self.max }
        ensures { result ≡ gap self counter ocr }
    {
        let s = self.search(counter, ocr);
        s.gap
    }
}

impl Counter {
    // n quiet ticks in one step; none leave the block as it was.
    pub fn skip(self, wave: Wave, n: u32) -> Counter
        requires { (Turns self.direction) × (cond (falls wave self) (n ≤ self.count) (self.count + n < 65536)) }
        ensures { result ≡ skipped wave n self }
    {
        let direction = self.direction;
        Counter {
            count: moved(wave.falls(self), self.count, n),
            direction,
            blocked: self.blocked & (n == 0),
            odometer: counted(self.odometer, n as u64),
        }
    }
}
