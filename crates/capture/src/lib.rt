// Input capture, and edges of the T pin.

#![tactic(auto)]

ghost use Rattle.std.specs.Prelude.{◌≡◌};
ghost use Rattle.counter.specs.Capture.{capture, captures, captured, ticks_on};
ghost use Rattle.counter.specs.Logs.{Logs};

use counter::advance::Logged;
use counter::state::{Flags, Timer};
use records::Log;
use tick::flags::put_flags;
use tick::happenings::Events;
use time::units::Cycle;
use wave::kinds::ICR;

// The capture of a call, alone.
pub fn capture() -> Events
    ensures { result ≡ capture }
{
    Events {
        a: false,
        b: false,
        c: false,
        top: false,
        zero: false,
        overflow: false,
        capture: true,
        load: false,
        bottom: false,
        rises: false,
    }
}

// Does an edge to a level capture: there is an ICR that is not TOP, and TCCRnB bit 6 chooses the level.
pub fn captures(t: Timer, level: u8) -> bool
    ensures { result ≡ captures t level }
{
    let config = t.config;
    let icr = config.icr;
    let registers = t.registers;
    let source = Timer::source_at(config.wide, t.mode());
    icr.present & (source != ICR) & (level == registers.tccrb / 64 % 2)
}

// ICRn takes TCNTn, then ICF is raised, with its records.
pub fn captured(t: Timer, cycle: Cycle) -> Logged
    ensures { Logs (captured t) cycle.0 result }
{
    let mode = t.mode();
    let wave = t.wave_at(mode);
    let s = t.setting(mode, wave);
    let counter = t.counter;
    let was = t.flags;
    let e = capture();
    let up = s.raised(e);
    let tifr = was.tifr | up;
    let mut bytes = [0u8; 110];
    let to = put_flags(e, s.flag_entry(up, tifr), s.id, &mut bytes, 0, cycle);
    let flags = Flags {
        tifr,
        timsk: was.timsk,
    };
    let mut u = t.with_icr(counter.count);
    u.flags = flags;
    let log = Log { bytes, len: to };
    Logged { timer: u, log }
}

// Does an edge of the T pin to a level tick: the clock select chooses the level, and nothing holds the counter.
pub fn ticks_on(t: Timer, level: u8) -> bool
    ensures { result ≡ ticks_on t level }
{
    let config = t.config;
    let registers = t.registers;
    let clocks = config.clocks;
    Timer::chosen(clocks, registers.tccrb % 8, level) & !t.held()
}
