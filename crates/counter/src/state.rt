// What changes of a timer, in parts.

use config::Config;
use tick::setting::Drives;
use time::clock::Clock;
use time::halts::Halts;
use wave::count::Counter;

#[repr(C)]
#[derive(Clone, Copy)]
pub struct Registers {
    pub tccra: u8,
    pub tccrb: u8,
    pub icr: u32,
    pub temp: u8,
}

#[repr(C)]
#[derive(Clone, Copy)]
pub struct Flags {
    pub tifr: u8,
    pub timsk: u8,
}

// ocr has the active compares of the channels A, B and C, buffer the buffered ones, oc the output levels.
#[repr(C)]
#[derive(Clone, Copy)]
pub struct Timer {
    pub config: Config,
    pub counter: Counter,
    pub ocr: [u32; 3],
    pub buffer: [u32; 3],
    pub oc: [u8; 3],
    pub drives: Drives,
    pub registers: Registers,
    pub flags: Flags,
    pub clock: Clock,
    pub halts: Halts,
}
