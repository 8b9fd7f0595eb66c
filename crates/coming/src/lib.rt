// The next event of a count that rises or falls, reckoned from a scene.

#![tactic(auto)]

ghost use Rattle.std.specs.Prelude.{◌≡◌, ◌<◌, ◌≤◌};
ghost use Rattle.wave.specs.Distance.{space, reach};
ghost use Rattle.coming.specs.Coming.{nearer_in, gap_in, over_in, bits_in, coming_of, Within};

use scene::state::Scene;
use tick::flags::masked;
use wave::count::Counter;
use wave::distance::moved;
use wave::kinds::dual_slope;

// Ticks to the next event, and the TIFR bits that its tick will raise.
#[derive(Clone, Copy)]
pub struct Nearest {
    pub ticks: u32,
    pub flags: u8,
}

// Ticks before a compare is met, else all there are. The way to one that lies behind wraps, and is longer than any.
fn nearer(present: bool, down: bool, count: u32, compare: u32, all: u32) -> u32
    requires { all ≤ reach down count }
    ensures { (result ≡ nearer_in present down count compare all) × (result ≤ all) }
{
    let way = if down {
        std::num::wrapping_sub_u32(count, compare)
    } else {
        std::num::wrapping_sub_u32(compare, count)
    };
    if present & (way <= all) { way } else { all }
}

// Quiet ticks before the next event's.
fn gap(s: Scene, down: bool, count: u32, top: u32, ocr: [u32; 3]) -> u32
    requires { (count ≤ s.max) × (top ≤ s.max) × (s.max < 65536) }
    ensures { (result ≡ gap_in s down count top ocr) × (result ≤ space down count top s.max) }
{
    let all = if down {
        count
    } else if count <= top {
        top - count
    } else {
        s.max - count
    };
    let c = nearer(s.pc, down, count, ocr[2], all);
    let b = nearer(s.pb, down, count, ocr[1], c);
    nearer(s.pa, down, count, ocr[0], b)
}

// Does a tick at a count raise TOV: F at TOP, P and Q at 0, N and C at MAX.
fn over(s: Scene, down: bool, count: u32, top: u32) -> bool
    ensures { result ≡ over_in s down count top }
{
    if s.fast {
        count == top
    } else if dual_slope(s.kind) {
        down & (count == 0)
    } else {
        count == s.max
    }
}

// The bits that a tick at a count raises; free tells that no match is blocked. A unit that is not there has no bit, so its compare need not be asked for.
fn bits(s: Scene, down: bool, free: bool, count: u32, top: u32, ocr: [u32; 3]) -> u8
    ensures { result ≡ bits_in s down free count top ocr }
{
    masked(over(s, down, count, top), s.tov)
        | masked(free & (count == ocr[0]), s.fa)
        | masked(free & (count == ocr[1]), s.fb)
        | masked(!down & (count == top), s.capt)
        | masked(free & (count == ocr[2]), s.fc)
}

// The next event of a counter, which falls or not. A match stays blocked only where the next tick is the event's.
pub fn coming(s: Scene, down: bool, counter: Counter, top: u32, ocr: [u32; 3]) -> Nearest
    requires { Within s counter top }
    ensures { result ≡ coming_of s down counter top ocr }
{
    let count = counter.count;
    let n = gap(s, down, count, top, ocr);
    let free = !(counter.blocked & (n == 0));
    Nearest {
        ticks: n + 1,
        flags: bits(s, down, free, moved(down, count, n), top, ocr),
    }
}
