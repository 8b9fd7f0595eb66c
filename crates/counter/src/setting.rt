// A timer as the ticks of one call see it: what they cannot change, and what they move.

ghost use Rattle.std.specs.Prelude.{◌≡◌};
ghost use Rattle.counter.specs.Modes.{toggles_at};
ghost use Rattle.counter.specs.Setting.{setting_at, moving_of, settle};

use crate::state::{Flags, Timer};
use tick::setting::{Channel, Moving, Setting};
use wave::kinds::Wave;

impl Timer {
    // Does COM 1 toggle channel A in a PWM mode.
    pub fn toggles_at(wide: bool, mode: u8) -> bool
        ensures { result ≡ toggles_at wide mode }
    {
        if wide {
            match mode {
                9 | 11 | 15 => true,
                _ => false,
            }
        } else {
            match mode {
                5 | 7 => true,
                _ => false,
            }
        }
    }

    // What no tick changes, in a mode and its waveform.
    pub fn setting(self, mode: u8, wave: Wave) -> Setting
        ensures { result ≡ setting_at self mode wave }
    {
        let config = self.config;
        let registers = self.registers;
        let flags = self.flags;
        let capture = config.icr;
        let kind = wave.kind;
        let tccra = registers.tccra;
        let toggles = Self::toggles_at(config.wide, mode);
        let buffer = self.buffer;
        let ua = config.a;
        let ub = config.b;
        let uc = config.c;
        let a = Channel::of(ua, tccra / 64 % 4, kind, toggles);
        let b = Channel::of(ub, tccra / 16 % 4, kind, false);
        let c = Channel::of(uc, tccra / 4 % 4, kind, false);
        Setting {
            wave,
            a,
            b,
            c,
            buffer,
            tov: config.tov,
            capture: capture.present,
            icf: capture.flag,
            timsk: flags.timsk,
            id: config.id,
        }
    }

    // What ticks change.
    pub fn moving(self) -> Moving
        ensures { result ≡ moving_of self }
    {
        let flags = self.flags;
        let counter = self.counter;
        let ocr = self.ocr;
        let oc = self.oc;
        let drives = self.drives;
        Moving {
            counter,
            ocr,
            oc,
            drives,
            tifr: flags.tifr,
        }
    }

    // The timer with what moved put back.
    pub fn settled(self, m: Moving) -> Timer
        ensures { result ≡ settle self m }
    {
        let was = self.flags;
        let flags = Flags {
            tifr: m.tifr,
            timsk: was.timsk,
        };
        let counter = m.counter;
        let ocr = m.ocr;
        let oc = m.oc;
        let drives = m.drives;
        let mut t = self;
        t.counter = counter;
        t.ocr = ocr;
        t.oc = oc;
        t.drives = drives;
        t.flags = flags;
        t
    }
}
