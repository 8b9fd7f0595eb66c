// A timer as its ticks see it: what they cannot change, and what they move.

ghost use Rattle.std.specs.Prelude.{◌≤◌, ◌≡◌};
ghost use Rattle.wave.specs.Distance.{gap};
ghost use Rattle.tick.specs.Setting.{enabled_at, channel_of};
ghost use Rattle.tick.specs.Skip.{linear};
ghost use Rattle.tick.specs.Sound.{Steady};

use config::{Compare, Wire};
use wave::count::Counter;
use wave::kinds::{Wave, non_pwm};

// A compare channel: its COM field, whether it drives its pin, the pin, and its TIFR bit.
#[repr(C)]
#[derive(Clone, Copy)]
pub struct Channel {
    pub comx: u8,
    pub enabled: bool,
    pub wire: Wire,
    pub flag: u8,
}

// What a tick cannot change. capture tells whether there is a capture unit; icf is its TIFR bit.
#[derive(Clone, Copy)]
pub struct Setting {
    pub wave: Wave,
    pub a: Channel,
    pub b: Channel,
    pub c: Channel,
    pub buffer: [u32; 3],
    pub tov: u8,
    pub capture: bool,
    pub icf: u8,
    pub timsk: u8,
    pub id: u8,
}

// All that a tick changes.
#[derive(Clone, Copy)]
pub struct Moving {
    pub counter: Counter,
    pub ocr: [u32; 3],
    pub oc: [u8; 3],
    pub drives: Drives,
    pub tifr: u8,
}

// The drive last recorded for each channel.
#[repr(C)]
#[derive(Clone, Copy)]
pub struct Drives {
    pub enables: [u8; 3],
    pub values: [u8; 3],
}

impl Channel {
    // Does a channel drive its pin: COM 1 only where it toggles.
    pub fn enabled_at(comx: u8, kind: u8, toggles: bool) -> bool
        ensures { result ≡ enabled_at comx kind toggles }
    {
        match comx {
            0 => false,
            1 => non_pwm(kind) | toggles,
            _ => true,
        }
    }

    // A unit as its COM field and the mode's kind have it.
    pub fn of(unit: Compare, comx: u8, kind: u8, toggles: bool) -> Channel
        ensures { result ≡ channel_of unit comx kind toggles }
    {
        let wire = unit.wire;
        Channel {
            comx,
            enabled: Self::enabled_at(comx, kind, toggles),
            wire,
            flag: unit.flag,
        }
    }
}

impl Moving {
    // n quiet ticks in one step; none leave the block as it was.
    pub fn skip(self, wave: Wave, n: u32) -> Moving
        requires { (Steady wave self) × (n ≤ gap wave self.counter self.ocr) }
        ensures { result ≡ linear wave n self }
    {
        let was = self.counter;
        let counter = was.skip(wave, n);
        let mut m = self;
        m.counter = counter;
        m
    }
}
