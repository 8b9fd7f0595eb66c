// Mode, kind, TOP, MAX and clock: the tables that belong to the timer.

ghost use Rattle.std.specs.Prelude.{◌<◌, ◌≡◌, cond};
ghost use Rattle.counter.specs.Modes.{mode_at, kind_at, source_at, fixed_at, max_at, divisor_at, chosen, mode_of, wave_of, divisor_of, prescaler_of, held_of, running_of};

use crate::state::Timer;
use config::SYNC;
use time::units::Prescaler;
use wave::kinds::{CTC, FAST, FIXED, ICR, NORMAL, OCRA, PC, PFC, Wave};

// Clocks that are no divisor: stopped, and the T pin's edges, past every divisor.
const STOP: u32 = 0;

const FALLING: u32 = 2048;

const RISING: u32 = 2049;

impl Timer {
    const NARROW_KINDS: [u8; 8] = [NORMAL, PC, CTC, FAST, NORMAL, PC, NORMAL, FAST];

    const WIDE_KINDS: [u8; 16] = [
        NORMAL, PC, PC, PC, CTC, FAST, FAST, FAST, PFC, PFC, PC, PC, CTC, NORMAL, FAST, FAST,
    ];

    const NARROW_SOURCES: [u8; 8] = [FIXED, FIXED, OCRA, FIXED, FIXED, OCRA, FIXED, OCRA];

    const WIDE_SOURCES: [u8; 16] = [
        FIXED, FIXED, FIXED, FIXED, OCRA, FIXED, FIXED, FIXED, ICR, OCRA, ICR, OCRA, ICR, FIXED,
        ICR, OCRA,
    ];

    const NARROW_TOPS: [u32; 8] = [0xff, 0xff, 0, 0xff, 0xff, 0, 0xff, 0];

    const WIDE_TOPS: [u32; 16] = [
        0xffff, 0xff, 0x1ff, 0x3ff, 0, 0xff, 0x1ff, 0x3ff, 0, 0, 0, 0, 0, 0xffff, 0, 0,
    ];

    // Clocks by select: stopped, the cycles a tick, or the T pin's edge.
    const CS_SYNC: [u32; 8] = [STOP, 1, 8, 64, 256, 1024, FALLING, RISING];

    const CS_TIMER2: [u32; 8] = [STOP, 1, 8, 32, 64, 128, 256, 1024];

    // The mode number: WGM bits of TCCRnB above those of TCCRnA.
    pub fn mode_at(wide: bool, tccra: u8, tccrb: u8) -> u8
        ensures { (result ≡ mode_at wide tccra tccrb) × (result < cond wide 16 8) }
    {
        if wide {
            tccrb / 8 % 4 * 4 + tccra % 4
        } else {
            tccrb / 8 % 2 * 4 + tccra % 4
        }
    }

    // The kind of a mode.
    pub fn kind_at(wide: bool, mode: u8) -> u8
        requires { mode < cond wide 16 8 }
        ensures { result ≡ kind_at wide mode }
    {
        let i = mode as usize;
        if wide {
            Self::WIDE_KINDS[i]
        } else {
            Self::NARROW_KINDS[i]
        }
    }

    // Where a mode has its TOP from.
    pub fn source_at(wide: bool, mode: u8) -> u8
        requires { mode < cond wide 16 8 }
        ensures { result ≡ source_at wide mode }
    {
        let i = mode as usize;
        if wide {
            Self::WIDE_SOURCES[i]
        } else {
            Self::NARROW_SOURCES[i]
        }
    }

    // The TOP that a mode fixes.
    pub fn fixed_at(wide: bool, mode: u8) -> u32
        requires { mode < cond wide 16 8 }
        ensures { result ≡ fixed_at wide mode }
    {
        let i = mode as usize;
        if wide {
            Self::WIDE_TOPS[i]
        } else {
            Self::NARROW_TOPS[i]
        }
    }

    // MAX.
    pub fn max_at(wide: bool) -> u32
        ensures { result ≡ max_at wide }
    {
        if wide { 0xffff } else { 0xff }
    }

    // Cycles a tick, 0 where the clock is stopped or the T pin's.
    pub fn divisor_at(clocks: u8, select: u8) -> u32
        requires { select < 8 }
        ensures { result ≡ divisor_at clocks select }
    {
        let i = select as usize;
        match clocks {
            SYNC => match select {
                0..=5 => Self::CS_SYNC[i],
                _ => 0,
            },
            _ => Self::CS_TIMER2[i],
        }
    }

    // Does the clock take an edge of the T pin to a level.
    pub fn chosen(clocks: u8, select: u8, level: u8) -> bool
        requires { select < 8 }
        ensures { result ≡ chosen clocks select level }
    {
        let i = select as usize;
        match clocks {
            SYNC => match select {
                0..=5 => false,
                _ => {
                    let edge = Self::CS_SYNC[i];
                    match edge {
                        FALLING => level == 0,
                        _ => level == 1,
                    }
                }
            },
            _ => false,
        }
    }

    // The mode number.
    pub fn mode(self) -> u8
        ensures { (result ≡ mode_of self) × (result < cond self.config.wide 16 8) }
    {
        let config = self.config;
        let registers = self.registers;
        Self::mode_at(config.wide, registers.tccra, registers.tccrb)
    }

    // The waveform in a mode.
    pub fn wave_at(self, mode: u8) -> Wave
        requires { mode < cond self.config.wide 16 8 }
        ensures { result ≡ wave_of self mode }
    {
        let config = self.config;
        let registers = self.registers;
        let wide = config.wide;
        let a = config.a;
        let b = config.b;
        let c = config.c;
        Wave {
            kind: Self::kind_at(wide, mode),
            source: Self::source_at(wide, mode),
            fixed: Self::fixed_at(wide, mode),
            max: Self::max_at(wide),
            icr: registers.icr,
            a: a.present,
            b: b.present,
            c: c.present,
        }
    }

    // Cycles a tick, 0 where there are none.
    pub fn divisor(self) -> u32
        ensures { result ≡ divisor_of self }
    {
        let config = self.config;
        let registers = self.registers;
        let clocks = config.clocks;
        Self::divisor_at(clocks, registers.tccrb % 8)
    }

    // The prescaler as the timer has it.
    pub fn prescaler(self) -> Prescaler
        ensures { result ≡ prescaler_of self }
    {
        let clock = self.clock;
        let origin = clock.origin;
        Prescaler {
            origin,
            divisor: self.divisor(),
        }
    }

    // Does sleep, power reduction or TSM hold the counter.
    pub fn held(self) -> bool
        ensures { result ≡ held_of self }
    {
        let halts = self.halts;
        halts.hold()
    }

    // Does the counter run on a divisor of the CPU clock.
    pub fn running(self) -> bool
        ensures { result ≡ running_of self }
    {
        (0 < self.divisor()) & !self.held()
    }
}
