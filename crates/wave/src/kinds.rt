// Kinds of mode and sources of TOP, and the waveform that mode and registers set.

ghost use Rattle.std.specs.Prelude.{◌≡◌, ◌==◌, nat_le};
ghost use Rattle.wave.specs.Kinds.{C, F, P};

// Kinds of mode: normal, CTC, fast PWM, phase correct PWM, phase and frequency correct PWM.
pub const NORMAL: u8 = 0;

pub const CTC: u8 = 1;

pub const FAST: u8 = 2;

pub const PC: u8 = 3;

pub const PFC: u8 = 4;

// Sources of TOP.
pub const FIXED: u8 = 0;

pub const OCRA: u8 = 1;

pub const ICR: u8 = 2;

// The waveform that mode and registers set: what decides the count. a, b and c tell which compares there are.
#[derive(Clone, Copy)]
pub struct Wave {
    pub kind: u8,
    pub source: u8,
    pub fixed: u32,
    pub max: u32,
    pub icr: u32,
    pub a: bool,
    pub b: bool,
    pub c: bool,
}

// Is a kind no PWM: N and C.
pub fn non_pwm(kind: u8) -> bool
    ensures { result ≡ nat_le kind C }
{
    match kind {
        NORMAL..=CTC => true,
        _ => false,
    }
}

// Is a kind fast PWM.
pub fn fast_pwm(kind: u8) -> bool
    ensures { result ≡ (kind == F) }
{
    match kind {
        FAST..=FAST => true,
        _ => false,
    }
}

// Does a kind turn or go to 0 at TOP: all but N.
pub fn ends_at_top(kind: u8) -> bool
    ensures { result ≡ nat_le C kind }
{
    match kind {
        NORMAL..=NORMAL => false,
        _ => true,
    }
}

// Does a kind count up and down: P and Q.
pub fn dual_slope(kind: u8) -> bool
    ensures { result ≡ nat_le P kind }
{
    match kind {
        NORMAL..=FAST => false,
        _ => true,
    }
}
