// Registers read: what an address holds, and what reading it yields.

#![tactic(auto)]

ghost use Rattle.std.specs.Prelude.{◌≡◌};
ghost use Rattle.counter.specs.Registers.{word_of, packed, control_of, peeked, read_value, read_timer};

use counter::state::Timer;

// A byte read, and the timer with what reading it does to TEMP.
#[derive(Clone, Copy)]
pub struct Byte {
    pub value: u8,
    pub timer: Timer,
}

// The number behind a register of two bytes: TCNTn, a compare's buffer, ICRn.
pub fn word(t: Timer, place: u8) -> u32
    ensures { result ≡ word_of t place }
{
    let counter = t.counter;
    let buffer = t.buffer;
    let registers = t.registers;
    match place {
        0..=1 => counter.count,
        2..=3 => buffer[0],
        4..=5 => buffer[1],
        6..=7 => buffer[2],
        _ => registers.icr,
    }
}

// TCCRn of a single layout: WGM0 in bit 6, COM in 5:4, WGM1 in 3, the clock in 2:0.
pub fn packed(t: Timer) -> u8
    ensures { result ≡ packed t }
{
    let registers = t.registers;
    let a = registers.tccra;
    a % 2 * 64 + a / 64 * 16 + a / 2 % 2 * 8 + registers.tccrb % 8
}

// A control or force register; force registers read 0.
pub fn control(t: Timer, place: u8) -> u8
    ensures { result ≡ control_of t place }
{
    let config = t.config;
    let registers = t.registers;
    match place {
        10 => {
            if config.is_split() {
                registers.tccra
            } else {
                packed(t)
            }
        }
        11 => registers.tccrb,
        _ => 0,
    }
}

// A register's byte as it stands.
pub fn peek(t: Timer, place: u8) -> u8
    ensures { result ≡ peeked t place }
{
    match place {
        0..=9 => {
            if place % 2 == 1 {
                (word(t, place) / 256 % 256) as u8
            } else {
                (word(t, place) % 256) as u8
            }
        }
        _ => control(t, place),
    }
}

// A register's byte as a program reads it. TCNTn and ICRn go through TEMP: a high byte is TEMP, a low one fills it in a
// wide timer. A compare passes TEMP by.
#[tactic(auto, unfolding(counter::specs::Registers::read_value, counter::specs::Registers::read_timer))]
pub fn read(t: Timer, place: u8) -> Byte
    ensures { (result.value ≡ read_value t place) × (result.timer ≡ read_timer t place) }
{
    let config = t.config;
    let registers = t.registers;
    let value = peek(t, place);
    match place {
        1 | 9 => Byte {
            value: registers.temp,
            timer: t,
        },
        0 | 8 => {
            if config.wide {
                Byte {
                    value,
                    timer: t.with_temp((word(t, place) / 256 % 256) as u8),
                }
            } else {
                Byte { value, timer: t }
            }
        }
        _ => Byte { value, timer: t },
    }
}
