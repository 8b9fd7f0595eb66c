// The configuration that a line gives: by all its keys, or by a preset's name and the keys that differ.

ghost use Rattle.std.specs.Prelude.{◌≡◌};
ghost use Rattle.script.specs.Configs.{wire_of, compare_of, third_of, capture_of, config_of, preset_line, of_keys, of_preset};

use crate::presets::{keys, preset};
use config::{Capture, Compare, Config, Wire};
use config_keys::{Keys, Value};
use words::{Unreadable, find, low8, low16, skip};

// A pin, or none.
fn wire(pin: Value) -> Wire
    ensures { result ≡ wire_of pin }
{
    Wire {
        present: pin.is_some(),
        pin: low8(pin.unwrap_or(0)),
    }
}

// A compare unit, absent with its address.
fn compare(address: Value, flag: u64, force: u64, pin: Value) -> Compare
    ensures { result ≡ compare_of address flag force pin }
{
    Compare {
        present: address.is_some(),
        address: low16(address.unwrap_or(0)),
        flag: low8(flag),
        force: low8(force),
        wire: wire(pin),
    }
}

// Compare C, which is absent or given whole.
#[tactic(auto, unfolding(crate::specs::Configs::third_of))]
fn third(keys: &Keys) -> Compare
    ensures { result ≡ third_of keys.now }
{
    match keys.values[18] {
        Some(None) => compare(None, 0, 0, None),
        _ => compare(
            keys.value(25),
            keys.number(26),
            keys.number(28),
            keys.value(27),
        ),
    }
}

// The capture unit, absent with its address.
fn capture(address: Value, flag: u64, pin: Value) -> Capture
    ensures { result ≡ capture_of address flag pin }
{
    Capture {
        present: address.is_some(),
        address: low16(address.unwrap_or(0)),
        flag: low8(flag),
        wire: wire(pin),
    }
}

// The configuration that the keys say.
#[tactic(auto, unfolding(crate::specs::Configs::config_of))]
fn config(keys: &Keys) -> Config
    ensures { result ≡ config_of keys.now }
{
    Config {
        id: low8(keys.number(0)),
        wide: keys.number(1) == 1,
        layout: low8(keys.number(2)),
        tccra: low16(keys.number(3)),
        tccrb: low16(keys.number(4)),
        foc: low16(keys.number(5)),
        tcnt: low16(keys.number(8)),
        a: compare(
            keys.value(9),
            keys.number(13),
            keys.number(6),
            keys.value(16),
        ),
        b: compare(
            keys.value(10),
            keys.number(14),
            keys.number(7),
            keys.value(17),
        ),
        c: third(keys),
        icr: capture(keys.value(11), keys.number(15), keys.value(19)),
        tov: low8(keys.number(12)),
        t: wire(keys.value(20)),
        clocks: low8(keys.number(21)),
        group: low8(keys.number(22)),
        prr: low16(keys.number(23)),
        sleeprun: low8(keys.number(24)),
    }
}

// The keys of a preset's name and of those that follow it.
#[tactic(auto, unfolding(crate::specs::Configs::preset_line, words::specs::Words::and_then))]
fn named(line: &[u8], at: usize) -> Result<Keys, Unreadable>
    ensures { result ≡ preset_line line.now at }
{
    let start = skip(line, at);
    if start == line.len() {
        return Err(Unreadable::MissingWord);
    }
    let end = find(line, start, b' ');
    let n = preset(&line[start..end]).ok_or(Unreadable::UnknownName)?;
    let given = Keys::of(line, end)?;
    Ok(given.over(keys(n)?))
}

// What a line gives by its keys, from a place on.
#[tactic(auto, unfolding(words::specs::Words::and_then))]
pub fn of_keys(line: &[u8], at: usize) -> Result<Config, Unreadable>
    ensures { result ≡ of_keys line.now at }
{
    let keys = Keys::of(line, at)?.whole()?;
    Ok(config(&keys))
}

// What a line gives by a preset's name and keys, from a place on.
#[tactic(auto, unfolding(words::specs::Words::and_then))]
pub fn of_preset(line: &[u8], at: usize) -> Result<Config, Unreadable>
    ensures { result ≡ of_preset line.now at }
{
    Ok(config(&named(line, at)?))
}
