// Registers: what writing one does. `reading` has what an address holds, and what reading it yields.

ghost use Rattle.std.specs.Prelude.{◌<◌, ◌≡◌};
ghost use Rattle.counter.specs.Logs.{Logs};
ghost use Rattle.counter.specs.Parts.{registers_to};
ghost use Rattle.counter.specs.Registers.{temp_to, icr_to, count_to, immediate, compare_to, committed, commit, configured, forced_by, driven, stored_a, strobes, written_a, written_b, written};
ghost use Rattle.counter.specs.Valid.{Valid};

use crate::advance::Logged;
use crate::state::{Registers, Timer};
use config::{Config, SINGLE, SPLIT};
use records::Log;
use tick::happenings::Events;
use tick::outputs::Outputs;
use time::units::Cycle;
use wave::kinds::non_pwm;

// The channels that a byte forces, as matches without a flag.
pub fn forced(config: Config, value: u8) -> Events
    ensures { result ≡ forced_by config value }
{
    let a = config.a;
    let b = config.b;
    let c = config.c;
    Events {
        a: value & a.force != 0,
        b: value & b.force != 0,
        c: c.present & (value & c.force != 0),
        top: false,
        zero: false,
        overflow: false,
        capture: false,
        load: false,
        bottom: false,
        rises: false,
    }
}

impl Timer {
    // The timer with other registers.
    pub fn with_registers(self, registers: Registers) -> Timer
        ensures { result ≡ registers_to self registers }
    {
        let mut t = self;
        t.registers = registers;
        t
    }

    // TEMP takes a byte.
    pub fn with_temp(self, temp: u8) -> Timer
        ensures { result ≡ temp_to self temp }
    {
        let mut registers = self.registers;
        registers.temp = temp;
        self.with_registers(registers)
    }

    // ICRn takes a number.
    pub fn with_icr(self, icr: u32) -> Timer
        ensures { result ≡ icr_to self icr }
    {
        let mut registers = self.registers;
        registers.icr = icr;
        self.with_registers(registers)
    }

    // TCNTn takes a count, and the next match is blocked.
    pub fn with_count(self, count: u32) -> Timer
        requires { Valid self }
        ensures { result ≡ count_to self count }
    {
        let mut counter = self.counter;
        counter.count = count;
        counter.blocked = true;
        let mut t = self;
        t.counter = counter;
        t
    }

    // Does the mode take compares at once: N and C.
    pub fn immediate(self) -> bool
        ensures { result ≡ immediate self }
    {
        let config = self.config;
        non_pwm(Self::kind_at(config.wide, self.mode()))
    }

    // A compare takes a number in its buffer, and in N and C at once.
    pub fn with_compare(self, ch: usize, compare: u32) -> Timer
        requires { ch < 3 }
        ensures { result ≡ compare_to self ch compare }
    {
        let mut buffer = self.buffer;
        buffer[ch] = compare;
        let mut t = self;
        t.buffer = buffer;
        if self.immediate() {
            let mut ocr = self.ocr;
            ocr[ch] = compare;
            t.ocr = ocr;
            t
        } else {
            t
        }
    }

    // What a low byte commits: TEMP above it in a wide timer.
    pub fn committed(self, value: u8) -> u32
        ensures { result ≡ committed self value }
    {
        let config = self.config;
        let registers = self.registers;
        if config.wide {
            (registers.temp as u32) * 256 + (value as u32)
        } else {
            value as u32
        }
    }

    // A low byte is written.
    pub fn commit(self, place: u8, value: u8) -> Timer
        requires { Valid self }
        ensures { result ≡ commit self place value }
    {
        let number = self.committed(value);
        match place {
            0..=1 => self.with_count(number),
            2..=3 => self.with_compare(0, number),
            4..=5 => self.with_compare(1, number),
            6..=7 => self.with_compare(2, number),
            _ => self.with_icr(number),
        }
    }

    // The control registers are stored; in N and C the buffered compares become the active ones.
    pub fn configured(self, tccra: u8, tccrb: u8) -> Timer
        ensures { result ≡ configured self tccra tccrb }
    {
        let mut registers = self.registers;
        registers.tccra = tccra;
        registers.tccrb = tccrb;
        let t = self.with_registers(registers);
        if t.immediate() {
            let buffer = self.buffer;
            let mut u = t;
            u.ocr = buffer;
            u
        } else {
            t
        }
    }

    // The drives reapplied where asked, then a force strobe, with their records.
    pub fn driven(self, again: bool, forces: u8, cycle: Cycle) -> Logged
        ensures { Logs (driven self again forces) cycle.0 result }
    {
        let config = self.config;
        let mode = self.mode();
        let wave = self.wave_at(mode);
        let s = self.setting(mode, wave);
        let oc = self.oc;
        let drives = self.drives;
        let e = forced(config, forces);
        let start = Outputs { oc, drives, to: 0 };
        let mut bytes = [0u8; 110];
        let o = s.drive(again, e, start, &mut bytes, cycle);
        let levels = o.oc;
        let shown = o.drives;
        let mut t = self;
        t.oc = levels;
        t.drives = shown;
        let log = Log { bytes, len: o.to };
        Logged { timer: t, log }
    }

    // TCCRnA as it is stored, or what TCCRn of a single layout stores there.
    pub fn stored_tccra(self, value: u8) -> u8
        ensures { result ≡ stored_a self.config self.config.layout value }
    {
        let config = self.config;
        let c = config.c;
        let layout = config.layout;
        match layout {
            SPLIT => if c.present { value } else { value & 0xf3 },
            SINGLE => value / 16 % 4 * 64 + value / 64 % 2 + value / 8 % 2 * 2,
            _ => 0,
        }
    }

    // The byte's force bits, where they stand in a control register at an address.
    pub fn strobes(self, address: u16, value: u8) -> u8
        ensures { result ≡ strobes self.config address value }
    {
        let config = self.config;
        if (config.foc == address) & !config.is_bare() {
            value
        } else {
            0
        }
    }

    // TCCRnA is written, or TCCRn of a single layout.
    pub fn write_tccra(self, value: u8, cycle: Cycle) -> Logged
        ensures { Logs (written_a self value) cycle.0 result }
    {
        let config = self.config;
        let registers = self.registers;
        let tccra = self.stored_tccra(value);
        let forces = self.strobes(config.tccra, value);
        if config.is_split() {
            self.configured(tccra, registers.tccrb)
                .driven(true, forces, cycle)
        } else {
            self.configured(tccra, value % 8)
                .driven(true, forces, cycle)
        }
    }

    // TCCRnB is written.
    pub fn write_tccrb(self, value: u8, cycle: Cycle) -> Logged
        ensures { Logs (written_b self value) cycle.0 result }
    {
        let config = self.config;
        let registers = self.registers;
        let forces = self.strobes(config.tccrb, value);
        if config.wide {
            self.configured(registers.tccra, value & 0xdf)
                .driven(true, forces, cycle)
        } else {
            self.configured(registers.tccra, value & 0x0f)
                .driven(true, forces, cycle)
        }
    }

    // A register's byte is written.
    pub fn write(self, place: u8, value: u8, cycle: Cycle) -> Logged
        requires { Valid self }
        ensures { Logs (written self place value) cycle.0 result }
    {
        match place {
            0..=9 => {
                if place % 2 == 1 {
                    Logged {
                        timer: self.with_temp(value),
                        log: Log::new(),
                    }
                } else {
                    Logged {
                        timer: self.commit(place, value),
                        log: Log::new(),
                    }
                }
            }
            10 => self.write_tccra(value, cycle),
            11 => self.write_tccrb(value, cycle),
            _ => self.driven(false, value, cycle),
        }
    }
}
