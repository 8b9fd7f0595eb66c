// The three timers of the ATmega328P on the 28-pin DIP, and what stands at its data addresses.

#![tactic(auto)]

ghost use Rattle.std.specs.Prelude.{◌≡◌};
ghost use Rattle.config.specs.Config.{no_wire, no_compare, no_capture};
ghost use Rattle.m328p.specs.Timers.{wire, compare, timer0, timer1, timer2};
ghost use Rattle.m328p.specs.Places.{is_of, register_at, place_at};

use config::{Capture, Compare, Config, SPLIT, SYNC, TIMER2, Wire};

// A timer's id, 0 to 2.
#[derive(Clone, Copy)]
pub enum Id {
    Zero,
    One,
    Two,
}

// What stands at a data address: GTCCR, or of a timer TIFRn, TIMSKn or a register.
#[derive(Clone, Copy)]
pub enum Place {
    Gtccr,
    Tifr(Id),
    Timsk(Id),
    Register(Id),
    Nowhere,
}

// A pin.
fn wire(pin: u8) -> Wire
    ensures { result ≡ wire pin }
{
    Wire { present: true, pin }
}

// No pin.
fn no_wire() -> Wire
    ensures { result ≡ no_wire }
{
    Wire {
        present: false,
        pin: 0,
    }
}

// A compare unit.
fn compare(address: u16, flag: u8, force: u8, pin: u8) -> Compare
    ensures { result ≡ compare address flag force pin }
{
    Compare {
        present: true,
        address,
        flag,
        force,
        wire: wire(pin),
    }
}

// No compare unit.
fn no_compare() -> Compare
    ensures { result ≡ no_compare }
{
    Compare {
        present: false,
        address: 0,
        flag: 0,
        force: 0,
        wire: no_wire(),
    }
}

// No capture unit.
fn no_capture() -> Capture
    ensures { result ≡ no_capture }
{
    Capture {
        present: false,
        address: 0,
        flag: 0,
        wire: no_wire(),
    }
}

// Yields Timer0's configuration.
pub fn timer0() -> Config
    ensures { result ≡ timer0 }
{
    Config {
        id: 0,
        wide: false,
        layout: SPLIT,
        tccra: 0x44,
        tccrb: 0x45,
        foc: 0x45,
        tcnt: 0x46,
        a: compare(0x47, 2, 0x80, 12),
        b: compare(0x48, 4, 0x40, 11),
        c: no_compare(),
        icr: no_capture(),
        tov: 1,
        t: wire(6),
        clocks: SYNC,
        group: 1,
        prr: 0x20,
        sleeprun: 0,
    }
}

// Yields Timer1's configuration.
pub fn timer1() -> Config
    ensures { result ≡ timer1 }
{
    let icr = Capture {
        present: true,
        address: 0x86,
        flag: 0x20,
        wire: wire(14),
    };
    Config {
        id: 1,
        wide: true,
        layout: SPLIT,
        tccra: 0x80,
        tccrb: 0x81,
        foc: 0x82,
        tcnt: 0x84,
        a: compare(0x88, 2, 0x80, 15),
        b: compare(0x8a, 4, 0x40, 16),
        c: no_compare(),
        icr,
        tov: 1,
        t: wire(11),
        clocks: SYNC,
        group: 1,
        prr: 8,
        sleeprun: 0,
    }
}

// Yields Timer2's configuration; it runs on in power-save and extended standby.
pub fn timer2() -> Config
    ensures { result ≡ timer2 }
{
    Config {
        id: 2,
        wide: false,
        layout: SPLIT,
        tccra: 0xb0,
        tccrb: 0xb1,
        foc: 0xb1,
        tcnt: 0xb2,
        a: compare(0xb3, 2, 0x80, 17),
        b: compare(0xb4, 4, 0x40, 5),
        c: no_compare(),
        icr: no_capture(),
        tov: 1,
        t: no_wire(),
        clocks: TIMER2,
        group: 2,
        prr: 0x40,
        sleeprun: 0x88,
    }
}

// Is an address a register of a timer.
fn is_of(config: Config, address: u16) -> bool
    ensures { result ≡ is_of config address }
{
    config.place(address) < 13
}

// Yields the timer whose register stands at a data address.
fn register(address: u16) -> Place
    ensures { result ≡ register_at address }
{
    if is_of(timer0(), address) {
        return Place::Register(Id::Zero);
    }
    if is_of(timer1(), address) {
        return Place::Register(Id::One);
    }
    if is_of(timer2(), address) {
        return Place::Register(Id::Two);
    }
    Place::Nowhere
}

// Yields what stands at a data address.
#[tactic(auto, unfolding(crate::specs::Places::place_at))]
pub fn placed(address: u16) -> Place
    ensures { result ≡ place_at address }
{
    match address {
        0x35 => Place::Tifr(Id::Zero),
        0x36 => Place::Tifr(Id::One),
        0x37 => Place::Tifr(Id::Two),
        0x43 => Place::Gtccr,
        0x6e => Place::Timsk(Id::Zero),
        0x6f => Place::Timsk(Id::One),
        0x70 => Place::Timsk(Id::Two),
        _ => register(address),
    }
}
