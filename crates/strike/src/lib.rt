// Event after event of a rising count, each from what is known of it before.

#![tactic(auto)]

ghost use Rattle.std.specs.Prelude.{◌+◌, ◌<◌, ◌≤◌, ◌^◌, ◌≡◌, length};
ghost use Rattle.time.specs.Units.{ticks_at};
ghost use Rattle.passage.specs.Passage.{Ready, Made};
ghost use Rattle.strike.specs.Strike.{run_in, aside_in, Known, Fit, Struck, Lone, Climbed, Rose, EveryRun};

use records::Log;
use scene::state::Scene;
use tick::outputs::Outputs;
use tick::setting::Drives;
use time::units::Cycle;

// Where a rising run stands: the next event's cycle, the count, the quiet ticks before the event, TOP, the TIFR bits that it will raise, what
// else ticks move, and the place of the next record.
#[derive(Clone, Copy)]
pub struct Rise {
    pub next: u64,
    pub to: usize,
    pub count: u32,
    pub gap: u32,
    pub top: u32,
    pub ocr: [u32; 3],
    pub oc: [u8; 3],
    pub drives: Drives,
    pub tifr: u8,
    pub flags: u8,
}

// An event's tick made aside: how the run stands after it, and its records.
#[derive(Clone, Copy)]
pub struct Aside {
    pub after: Rise,
    pub log: Log,
}

impl Rise {
    // The next event's tick, where 110 bytes are left; ticks come every 2^shift cycles. Most drive no pin: that is tested first.
    fn strike(self, s: Scene, shift: u8, area: &mut [u8]) -> Rise
        requires { (Fit s shift self (length area.old)) × (self.next < 2 ^ 63) × (self.to + 110 ≤ length area.old) }
        ensures { (Fit s shift result (length area.new)) × (self.next < result.next) × (result.to ≤ self.to + 110) × (EveryRun s shift self (λ t p d o first. Struck t p d o first self area.old result area.new)) }
    {
        let near = self.count + self.gap;
        let bottom = s.fast & (near == self.top);
        let count = s.after(near, self.top);
        let mut top = self.top;
        let mut ocr = self.ocr;
        if bottom {
            top = s.limit(top);
            ocr = s.buffer;
        }
        let gap = s.climb(count, top, ocr);
        let tifr = self.tifr | self.flags;
        let mut oc = self.oc;
        let mut drives = self.drives;
        let mut to = self.to;
        if s.pinned {
            let o = s.driven(
                self.flags,
                bottom,
                Outputs { oc, drives, to },
                area,
                Cycle(self.next),
            );
            oc = o.oc;
            drives = o.drives;
            to = o.to;
        }
        Rise {
            next: self.next + (((gap as u64) + 1) << shift),
            to: s.told(self.flags, tifr, area, to, Cycle(self.next)),
            count,
            gap,
            top,
            ocr,
            oc,
            drives,
            tifr,
            flags: s.raised(count + gap, top, ocr),
        }
    }

    // The same for the run's first event. It is written out again, since a function with two callers is compiled by itself, and each event then goes through memory.
    fn first(self, s: Scene, shift: u8, area: &mut [u8]) -> Rise
        requires { (Fit s shift self (length area.old)) × (self.next < 2 ^ 63) × (self.to + 110 ≤ length area.old) }
        ensures { (Fit s shift result (length area.new)) × (self.next < result.next) × (result.to ≤ self.to + 110) × (EveryRun s shift self (λ t p d o first. Struck t p d o first self area.old result area.new)) }
    {
        let near = self.count + self.gap;
        let bottom = s.fast & (near == self.top);
        let count = s.after(near, self.top);
        let mut limit = self.top;
        let mut active = self.ocr;
        if bottom {
            limit = s.limit(limit);
            active = s.buffer;
        }
        let way = s.climb(count, limit, active);
        let tifr = self.tifr | self.flags;
        let mut oc = self.oc;
        let mut drives = self.drives;
        let mut to = self.to;
        if s.pinned {
            let o = s.driven(
                self.flags,
                bottom,
                Outputs { oc, drives, to },
                area,
                Cycle(self.next),
            );
            oc = o.oc;
            drives = o.drives;
            to = o.to;
        }
        Rise {
            next: self.next + (((way as u64) + 1) << shift),
            to: s.told(self.flags, tifr, area, to, Cycle(self.next)),
            count,
            gap: way,
            top: limit,
            ocr: active,
            oc,
            drives,
            tifr,
            flags: s.raised(count + way, limit, active),
        }
    }

    // Event after event up to a cycle, while there are 110 bytes.
    fn climbs(self, s: Scene, shift: u8, cycle: u64, area: &mut [u8]) -> Rise
        requires { (Fit s shift self (length area.old)) × (cycle < 2 ^ 63) }
        ensures { (Fit s shift result (length area.new)) × (EveryRun s shift self (λ t p d o first. Ready t p (run_in p d o first self) (ticks_at p cycle) (length area.old) → Climbed t p d o first self (ticks_at p cycle) area.old result area.new)) × (cycle ≡ self.next → self.to + 110 ≤ length area.old → Lone s shift self area.old result area.new) }
    {
        let mut r = self;
        while (r.next <= cycle) & (110 <= area.len() - r.to) {
            r = r.strike(s, shift, area);
        }
        r
    }

    // The next event's tick, its records in a log aside.
    fn aside(self, s: Scene, shift: u8) -> Aside
        requires { (Fit s shift self self.to) × (self.next < 2 ^ 63) }
        ensures { (Fit s shift result.after 110) × (self.next < result.after.next) × (result.log.len ≤ 110) × (EveryRun s shift self (λ t p d o first. Made t p (run_in p d o first self) (aside_in p d o first result) × Known t p d o first result.after)) }
    {
        let mut bytes = [0u8; 110];
        let mut start = self;
        start.to = 0;
        let after = start.climbs(s, shift, start.next, &mut bytes);
        let log = Log {
            bytes,
            len: after.to,
        };
        Aside { after, log }
    }

    // The events near the area's end: each is made aside first, and written if it fits. It stops before the first that does not.
    fn closes(self, s: Scene, shift: u8, cycle: u64, area: &mut [u8]) -> Rise
        requires { (Fit s shift self (length area.old)) × (cycle < 2 ^ 63) }
        ensures { (Fit s shift result (length area.new)) × (EveryRun s shift self (λ t p d o first. Ready t p (run_in p d o first self) (ticks_at p cycle) (length area.old) → Rose t p d o first self cycle area.old result area.new)) }
    {
        let mut r = self;
        while r.next <= cycle {
            let to = r.to;
            let a = r.aside(s, shift);
            let log = a.log;
            if log.write(area, to) {
                r = a.after;
                r.to = to + log.len;
            } else {
                return r;
            }
        }
        r
    }

    // The events up to a cycle, or to the first whose records do not fit. The first stands by itself: most calls work one.
    pub fn rising(self, s: Scene, shift: u8, cycle: u64, area: &mut [u8]) -> Rise
        requires { (Fit s shift self (length area.old)) × (self.next ≤ cycle) × (cycle < 2 ^ 63) × (self.to + 110 ≤ length area.old) }
        ensures { (Fit s shift result (length area.new)) × (EveryRun s shift self (λ t p d o first. Rose t p d o first self cycle area.old result area.new)) }
    {
        let first = self.first(s, shift, area);
        if cycle < first.next {
            return first;
        }
        first
            .climbs(s, shift, cycle, area)
            .closes(s, shift, cycle, area)
    }
}
