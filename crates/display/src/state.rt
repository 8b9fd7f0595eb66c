// The timer as it stands.

ghost use Rattle.counter.specs.Valid.{Valid};
ghost use Rattle.page.specs.Page.{Puts};
ghost use Rattle.display.specs.States.{compared_of, three_of, driven_of, drives_of, levels_of, count_of, counts_of, outputs_of, lines_of, flags_of, halts_of, clock_of, state_of, distance_text};

use config::{Compare, Config};
use counter::state::Timer;
use page::Page;

// Puts a label and a compare's value, `-` where it is absent.
#[tactic(auto, using(page::proofs::Sheets::then), unfolding(crate::specs::States::compared_of, figures::specs::Figures::codes))]
fn compared(page: &mut Page, label: &[u8], c: Compare, value: u32)
    ensures { Puts page.old page.new (compared_of label.now c value) }
{
    if c.present {
        page.number(label, value as u64);
        return;
    }
    page.text(label);
    page.byte(b'-')
}

// Puts a label and the values of the three compares.
#[tactic(auto, using(page::proofs::Sheets::then), unfolding(crate::specs::States::three_of, figures::specs::Figures::codes))]
fn three(page: &mut Page, label: &[u8], config: Config, values: [u32; 3])
    ensures { Puts page.old page.new (three_of label.now config values) }
{
    let a = config.a;
    let b = config.b;
    let c = config.c;
    compared(page, label, a, values[0]);
    compared(page, b",", b, values[1]);
    compared(page, b",", c, values[2])
}

// Puts a label and a channel's drive, `-` where it has no pin.
#[tactic(auto, using(page::proofs::Sheets::then), unfolding(crate::specs::States::driven_of, figures::specs::Figures::codes))]
fn driven(page: &mut Page, label: &[u8], c: Compare, enable: u8, value: u8)
    ensures { Puts page.old page.new (driven_of label.now c enable value) }
{
    let wire = c.wire;
    if wire.present {
        page.number(label, enable as u64);
        page.number(b"", value as u64);
        return;
    }
    page.text(label);
    page.byte(b'-')
}

// Puts the drives of the three channels.
#[tactic(auto, using(page::proofs::Sheets::then), unfolding(crate::specs::States::drives_of, figures::specs::Figures::codes))]
fn drives(page: &mut Page, t: Timer)
    ensures { Puts page.old page.new (drives_of t) }
{
    let config = t.config;
    let a = config.a;
    let b = config.b;
    let c = config.c;
    let drives = t.drives;
    let enables = drives.enables;
    let values = drives.values;
    driven(page, b" drive=", a, enables[0], values[0]);
    driven(page, b",", b, enables[1], values[1]);
    driven(page, b",", c, enables[2], values[2])
}

// Puts the three output levels.
#[tactic(auto, using(page::proofs::Sheets::then), unfolding(crate::specs::States::levels_of, figures::specs::Figures::codes))]
fn levels(page: &mut Page, oc: [u8; 3])
    ensures { Puts page.old page.new (levels_of oc) }
{
    page.number(b" oc=", oc[0] as u64);
    page.number(b",", oc[1] as u64);
    page.number(b",", oc[2] as u64)
}

// Puts the counter's count and direction.
#[tactic(auto, using(page::proofs::Sheets::then), unfolding(crate::specs::States::count_of, figures::specs::Figures::codes))]
fn count(page: &mut Page, t: Timer)
    ensures { Puts page.old page.new (count_of t) }
{
    let counter = t.counter;
    page.number(b"state count=", counter.count as u64);
    if counter.direction < 0 {
        page.text(b" dir=-1")
    } else {
        page.text(b" dir=1")
    }
}

// Puts the counter, the compares, ICR and TEMP.
#[tactic(auto, using(page::proofs::Sheets::then), unfolding(crate::specs::States::counts_of, figures::specs::Figures::codes))]
fn counts(page: &mut Page, t: Timer)
    ensures { Puts page.old page.new (counts_of t) }
{
    let config = t.config;
    let registers = t.registers;
    let ocr = t.ocr;
    let buffer = t.buffer;
    count(page, t);
    three(page, b" ocr=", config, ocr);
    three(page, b" buf=", config, buffer);
    page.number(b" icr=", registers.icr as u64);
    page.register(b" temp=", registers.temp)
}

// Puts the outputs, the block and the control registers.
#[tactic(auto, using(page::proofs::Sheets::then), unfolding(crate::specs::States::outputs_of, figures::specs::Figures::codes))]
fn outputs(page: &mut Page, t: Timer)
    ensures { Puts page.old page.new (outputs_of t) }
{
    let counter = t.counter;
    let registers = t.registers;
    let oc = t.oc;
    levels(page, oc);
    drives(page, t);
    page.bit(b" block=", counter.blocked);
    page.register(b" tccra=", registers.tccra);
    page.register(b" tccrb=", registers.tccrb)
}

// Puts the request lines overflow, A, B, capture and C.
#[tactic(auto, using(page::proofs::Sheets::then), unfolding(crate::specs::States::lines_of, figures::specs::Figures::codes))]
fn lines(page: &mut Page, config: Config, active: u8)
    ensures { Puts page.old page.new (lines_of config active) }
{
    let a = config.a;
    let b = config.b;
    let c = config.c;
    let icr = config.icr;
    page.bit(b" lines=", active & config.tov != 0);
    page.bit(b"", active & a.flag != 0);
    page.bit(b"", active & b.flag != 0);
    page.bit(b"", active & icr.flag != 0);
    page.bit(b"", active & c.flag != 0)
}

// Puts the flags and the request lines.
#[tactic(auto, using(page::proofs::Sheets::then), unfolding(crate::specs::States::flags_of, figures::specs::Figures::codes))]
fn flags(page: &mut Page, t: Timer)
    ensures { Puts page.old page.new (flags_of t) }
{
    let flags = t.flags;
    page.register(b" tifr=", flags.tifr);
    page.register(b" timsk=", flags.timsk);
    lines(page, t.config, flags.tifr & flags.timsk)
}

// Puts what halts the counter, and whether the comparator feeds the capture.
#[tactic(auto, using(page::proofs::Sheets::then), unfolding(crate::specs::States::halts_of, figures::specs::Figures::codes))]
fn halts(page: &mut Page, t: Timer)
    ensures { Puts page.old page.new (halts_of t) }
{
    let halts = t.halts;
    page.bit(b" asleep=", halts.asleep);
    page.bit(b" prr=", halts.reduced);
    page.bit(b" tsm=", halts.tsm);
    page.bit(b" route=", halts.routed)
}

// Puts the cycles, and between them what halts the counter.
#[tactic(auto, using(page::proofs::Sheets::then), unfolding(crate::specs::States::clock_of, figures::specs::Figures::codes))]
fn clock(page: &mut Page, t: Timer)
    ensures { Puts page.old page.new (clock_of t) }
{
    let clock = t.clock;
    let sync = clock.sync;
    let origin = clock.origin;
    let latest = clock.latest;
    page.number(b" sync=", sync.0);
    page.number(b" origin=", origin.0);
    halts(page, t);
    page.number(b" latest=", latest.0)
}

// Puts the timer.
#[tactic(auto, using(page::proofs::Sheets::then), unfolding(crate::specs::States::state_of, figures::specs::Figures::codes))]
pub fn state(page: &mut Page, t: Timer)
    ensures { Puts page.old page.new (state_of t) }
{
    let counter = t.counter;
    counts(page, t);
    outputs(page, t);
    flags(page, t);
    clock(page, t);
    page.number(b" odometer=", counter.odometer)
}

// Puts the distance to the next event's tick, the flags that this will raise, and the compares looked at.
#[tactic(auto, using(page::proofs::Sheets::then), unfolding(crate::specs::States::distance_text, figures::specs::Figures::codes))]
pub fn distance(page: &mut Page, t: Timer)
    requires { Valid t }
    ensures { Puts page.old page.new (distance_text t) }
{
    let d = t.distance();
    page.number(b"distance ticks=", d.ticks as u64);
    page.register(b" flags=", d.flags);
    page.number(b" looked=", d.looked as u64)
}
