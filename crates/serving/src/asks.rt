// What a call is tested for, and whether time passes before its work.

ghost use Rattle.std.specs.Prelude.{false, true, not, ◌&&◌, ◌||◌, ◌≡◌, leb, eqb};
ghost use Rattle.counter.specs.Halts.{halting};
ghost use Rattle.counter.specs.Registers.{is_high, immediate};
ghost use Rattle.timer.specs.Calls.{asks, asking, edge_captures, edge_ticks};
ghost use Rattle.serving.specs.Asks.{asks_in};

use access::is_high;
use capture::{captures, ticks_on};
use counter::state::Timer;
use dispatch::is_pin;
use timer::calls::Call;

// absent tells that there is no register at its address, wrong a level or a mode that there is not, tested that it may not pass the next event, halted that
// a timer asleep cannot take it, syncs that time passes first.
#[derive(Clone, Copy)]
pub struct Asks {
    pub absent: bool,
    pub wrong: bool,
    pub tested: bool,
    pub halted: bool,
    pub syncs: bool,
}

// A call that lets no time pass.
fn still(wrong: bool, tested: bool) -> Asks
    ensures { result ≡ asks_in (asking false wrong tested false false) }
{
    Asks {
        absent: false,
        wrong,
        tested,
        halted: false,
        syncs: false,
    }
}

// A call that lets time pass if it turns something.
fn turning(wrong: bool, halted: bool, syncs: bool) -> Asks
    ensures { result ≡ asks_in (asking false wrong true halted syncs) }
{
    Asks {
        absent: false,
        wrong,
        tested: true,
        halted,
        syncs,
    }
}

// A call on the register at a place.
fn placed(place: u8, tested: bool, syncs: bool) -> Asks
    ensures { result ≡ asks_in (asking (leb 13 place) false tested false syncs) }
{
    Asks {
        absent: 13 <= place,
        wrong: false,
        tested,
        halted: false,
        syncs,
    }
}

// Does an edge of a pin capture.
pub fn edge_captures(t: Timer, pin: u8, level: u8) -> bool
    ensures { result ≡ edge_captures t pin level }
{
    let config = t.config;
    let icr = config.icr;
    let halts = t.halts;
    if is_pin(icr.wire, pin) & !halts.routed {
        captures(t, level)
    } else {
        false
    }
}

// Does an edge of a pin tick.
pub fn edge_ticks(t: Timer, pin: u8, level: u8) -> bool
    ensures { result ≡ edge_ticks t pin level }
{
    let config = t.config;
    if is_pin(config.t, pin) {
        ticks_on(t, level)
    } else {
        false
    }
}

// A read lets time pass but of a high byte.
fn reading(place: u8) -> Asks
    ensures { result ≡ asks_in (asking (leb 13 place) false (not (is_high place)) false (not (is_high place))) }
{
    let high = is_high(place);
    placed(place, !high, !high)
}

// A write lets time pass but to a high byte, and in the PWM modes to a force register.
fn writing(t: Timer, place: u8) -> Asks
    ensures { result ≡ asks_in (asking (leb 13 place) false (not (is_high place)) false (not (is_high place || eqb place 12 && not (immediate t)))) }
{
    let high = is_high(place);
    placed(place, !high, !(high | ((place == 12) & !t.immediate())))
}

// A call that a timer asleep cannot take where it turns something.
fn shut_asleep(asleep: bool, wrong: bool, turns: bool) -> Asks
    ensures { result ≡ asks_in (asking false wrong true (asleep && turns) turns) }
{
    turning(wrong, asleep & turns, turns)
}

// Does a sleep mode halt; one over 7 does as the table has it.
fn halts_in(t: Timer, mode: u8) -> bool
    ensures { result ≡ halting t mode }
{
    (7 < mode) | t.halts_in(mode % 8)
}

// What a call is tested for, and whether time passes first.
pub fn tests(t: Timer, c: Call) -> Asks
    ensures { result ≡ asks_in (asks t c) }
{
    let config = t.config;
    let halts = t.halts;
    match c {
        Call::Advance => still(false, false),
        Call::Next => still(false, true),
        Call::Read(address) => reading(config.place(address)),
        Call::Peek(address) => placed(config.place(address), true, true),
        Call::Write(address, value) => writing(t, config.place(address)),
        Call::Tifr => still(false, true),
        Call::Timsk => still(false, true),
        Call::WriteTifr(ones) => still(false, true),
        Call::WriteTimsk(mask) => still(false, true),
        Call::Edge(pin, level) => turning(1 < level, false, edge_captures(t, pin, level)),
        Call::Output(level) => turning(1 < level, false, halts.routed & captures(t, level)),
        Call::Route(level) => still(1 < level, true),
        Call::Sleep(mode) => shut_asleep(halts.asleep, 7 < mode, halts_in(t, mode)),
        Call::Wake => still(false, true),
        Call::Reduce(mask) => turning(false, false, (mask & config.prr != 0) != halts.reduced),
        Call::Tsm(level) => shut_asleep(halts.asleep, 1 < level, (level == 1) != halts.tsm),
        Call::Prescale(mask) => shut_asleep(halts.asleep, false, mask & config.group != 0),
        Call::Reset => still(false, false),
    }
}
