// Compare outputs, and the drives recorded on change.

ghost use Rattle.std.specs.Prelude.{◌+◌, ◌<◌, ◌≤◌, ◌≡◌, cond, leb, length};
ghost use Rattle.tick.specs.Outputs.{bit, pin_entry, drive_to, level_of, recorded, applied, acted, matched, bottomed, matches_of, bottoms_of, outputs, outs_of, begun, Wrote, reapplied, strobed};

use crate::happenings::Events;
use crate::setting::{Channel, Drives, Moving, Setting};
use records::Entry;
use time::units::Cycle;
use wave::kinds::{FAST, NORMAL, non_pwm};

// The outputs on their way through a call: levels, drives last recorded, and the place of the next record.
#[derive(Clone, Copy)]
pub struct Outputs {
    pub oc: [u8; 3],
    pub drives: Drives,
    pub to: usize,
}

// 1 for true.
pub fn bit(b: bool) -> u8
    ensures { (result ≡ bit b) × (result ≤ 1) }
{
    if b { 1 } else { 0 }
}

// A drive's entry.
pub fn pin_entry(pin: u8, enable: u8, value: u8) -> Entry
    ensures { result ≡ pin_entry pin enable value }
{
    Entry {
        kind: 0,
        body: (pin as u16) * 256 + ((enable % 2) as u16) * 128 + ((value % 2) as u16) * 64,
    }
}

impl Channel {
    // The level that a match gives. In P and Q it depends on whether the match counts as rising.
    pub fn level(self, kind: u8, old: u8, rises: bool) -> u8
        ensures { result ≡ level_of self kind old rises }
    {
        let comx = self.comx;
        match comx {
            1 => bit(old == 0),
            _ => match kind {
                NORMAL..=FAST => bit(comx == 3),
                _ => bit((comx == 2) != rises),
            },
        }
    }
}

impl Channel {
    // Does the COM field act at BOTTOM in F: 2 and 3.
    pub fn acts_at_bottom(self) -> bool
        ensures { result ≡ leb 2 self.comx }
    {
        let comx = self.comx;
        match comx {
            0..=1 => false,
            _ => true,
        }
    }
}

impl Drives {
    // The drives with one channel's recorded.
    pub fn with(self, ch: usize, enable: u8, value: u8) -> Drives
        requires { ch < 3 }
        ensures { result ≡ drive_to self ch enable value }
    {
        let mut d = self;
        d.enables[ch] = enable;
        d.values[ch] = value;
        d
    }
}

impl Outputs {
    // A drive is recorded if it is another than the one last recorded.
    pub fn record(
        self,
        pin: u8,
        ch: usize,
        enable: u8,
        value: u8,
        area: &mut [u8],
        cycle: Cycle,
    ) -> Outputs
        requires { (ch < 3) × (self.to + 10 ≤ length area.old) }
        ensures { Wrote (recorded pin ch enable value (begun self)) cycle.0 self.to area.old result area.new × (result.to ≤ self.to + 10) }
    {
        let drives = self.drives;
        let enables = drives.enables;
        let values = drives.values;
        if (enables[ch] == enable) & (values[ch] == value) {
            self
        } else {
            let d = drives.with(ch, enable, value);
            let to = records::put(area, self.to, cycle.0, pin_entry(pin, enable, value));
            let mut o = self;
            o.drives = d;
            o.to = to;
            o
        }
    }

    // The channel's enable and level go to its pin, if it has one.
    pub fn apply(self, channel: Channel, ch: usize, area: &mut [u8], cycle: Cycle) -> Outputs
        requires { (ch < 3) × (self.to + 10 ≤ length area.old) }
        ensures { Wrote (applied channel ch (begun self)) cycle.0 self.to area.old result area.new × (result.to ≤ self.to + 10) }
    {
        let oc = self.oc;
        let level = oc[ch];
        let wire = channel.wire;
        if wire.present {
            self.record(wire.pin, ch, bit(channel.enabled), level, area, cycle)
        } else {
            self
        }
    }

    // The channel's output takes a level.
    pub fn act(
        self,
        channel: Channel,
        ch: usize,
        level: u8,
        area: &mut [u8],
        cycle: Cycle,
    ) -> Outputs
        requires { (ch < 3) × (self.to + 10 ≤ length area.old) }
        ensures { Wrote (acted channel ch level (begun self)) cycle.0 self.to area.old result area.new × (result.to ≤ self.to + 10) }
    {
        let mut o = self;
        o.oc[ch] = level;
        o.apply(channel, ch, area, cycle)
    }

    // A match of the channel, in a kind of mode.
    pub fn matched(
        self,
        kind: u8,
        channel: Channel,
        ch: usize,
        hit: bool,
        rises: bool,
        area: &mut [u8],
        cycle: Cycle,
    ) -> Outputs
        requires { (ch < 3) × (self.to + 10 ≤ length area.old) }
        ensures { Wrote (matched kind channel ch hit rises (begun self)) cycle.0 self.to area.old result area.new × (result.to ≤ self.to + 10) }
    {
        if hit & channel.enabled {
            let oc = self.oc;
            let level = channel.level(kind, oc[ch], rises);
            self.act(channel, ch, level, area, cycle)
        } else {
            self
        }
    }

    // The channel at BOTTOM in F: COM 2 sets and 3 clears.
    pub fn bottomed(self, channel: Channel, ch: usize, area: &mut [u8], cycle: Cycle) -> Outputs
        requires { (ch < 3) × (self.to + 10 ≤ length area.old) }
        ensures { Wrote (bottomed channel ch (begun self)) cycle.0 self.to area.old result area.new × (result.to ≤ self.to + 10) }
    {
        let comx = channel.comx;
        if channel.acts_at_bottom() {
            self.act(channel, ch, bit(comx == 2), area, cycle)
        } else {
            self
        }
    }
}

// The outputs after a tick's matches A, B and C, in a kind of mode. It takes the channels alone, since what is taken by value is copied.
pub fn matches(
    kind: u8,
    a: Channel,
    b: Channel,
    c: Channel,
    e: Events,
    start: Outputs,
    area: &mut [u8],
    cycle: Cycle,
) -> Outputs
    requires { start.to + 30 ≤ length area.old }
    ensures { Wrote (matches_of kind a b c e (begun start)) cycle.0 start.to area.old result area.new × (result.to ≤ start.to + 30) }
{
    let first = start.matched(kind, a, 0, e.a, e.rises, area, cycle);
    let second = first.matched(kind, b, 1, e.b, e.rises, area, cycle);
    second.matched(kind, c, 2, e.c, e.rises, area, cycle)
}

// The outputs A, B and C at BOTTOM.
pub fn bottoms(
    a: Channel,
    b: Channel,
    c: Channel,
    start: Outputs,
    area: &mut [u8],
    cycle: Cycle,
) -> Outputs
    requires { start.to + 30 ≤ length area.old }
    ensures { Wrote (bottoms_of a b c (begun start)) cycle.0 start.to area.old result area.new × (result.to ≤ start.to + 30) }
{
    let first = start.bottomed(a, 0, area, cycle);
    let second = first.bottomed(b, 1, area, cycle);
    second.bottomed(c, 2, area, cycle)
}

impl Setting {
    // The outputs after a tick. Most ticks drive no pin: that is tested first.
    pub fn outputs(self, e: Events, m: Moving, area: &mut [u8], at: usize, cycle: Cycle) -> Outputs
        requires { at + 60 ≤ length area.old }
        ensures { Wrote (outputs self e (outs_of m)) cycle.0 at area.old result area.new × (result.to ≤ at + 60) }
    {
        let oc = m.oc;
        let drives = m.drives;
        let wave = self.wave;
        let kind = wave.kind;
        let a = self.a;
        let b = self.b;
        let c = self.c;
        let start = Outputs { oc, drives, to: at };
        if e.bottom {
            let matched = matches(kind, a, b, c, e, start, area, cycle);
            bottoms(a, b, c, matched, area, cycle)
        } else if (e.a & a.enabled) | (e.b & b.enabled) | (e.c & c.enabled) {
            matches(kind, a, b, c, e, start, area, cycle)
        } else {
            start
        }
    }

    // The channels' enables and levels go to their pins, A, B, C.
    pub fn reapply(self, start: Outputs, area: &mut [u8], cycle: Cycle) -> Outputs
        requires { start.to + 30 ≤ length area.old }
        ensures { Wrote (reapplied self (begun start)) cycle.0 start.to area.old result area.new × (result.to ≤ start.to + 30) }
    {
        let a = self.a;
        let b = self.b;
        let c = self.c;
        let first = start.apply(a, 0, area, cycle);
        let second = first.apply(b, 1, area, cycle);
        second.apply(c, 2, area, cycle)
    }

    // A force strobe acts only in N and C.
    pub fn strobe(self, e: Events, start: Outputs, area: &mut [u8], cycle: Cycle) -> Outputs
        requires { start.to + 30 ≤ length area.old }
        ensures { Wrote (strobed self e (begun start)) cycle.0 start.to area.old result area.new × (result.to ≤ start.to + 30) }
    {
        let wave = self.wave;
        let kind = wave.kind;
        if non_pwm(kind) {
            let a = self.a;
            let b = self.b;
            let c = self.c;
            matches(kind, a, b, c, e, start, area, cycle)
        } else {
            start
        }
    }

    // The drives reapplied where asked, then a force strobe.
    pub fn drive(
        self,
        again: bool,
        e: Events,
        start: Outputs,
        area: &mut [u8],
        cycle: Cycle,
    ) -> Outputs
        requires { start.to + 60 ≤ length area.old }
        ensures { Wrote (strobed self e (cond again (reapplied self (begun start)) (begun start))) cycle.0 start.to area.old result area.new × (result.to ≤ start.to + 60) }
    {
        if again {
            let first = self.reapply(start, area, cycle);
            self.strobe(e, first, area, cycle)
        } else {
            self.strobe(e, start, area, cycle)
        }
    }
}
