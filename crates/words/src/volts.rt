// Volts: decimals of at most 15 digits, each rounded once to the nearest f64, the names of what is no number, and the bits of either.

ghost use Rattle.std.specs.Prelude.{◌≡◌, ◌^◌, ◌<◌, ◌≤◌, to_bits, IfOk};
ghost use Rattle.std.specs.Float.{binary64};
ghost use Rattle.words.specs.Decimals.{nearest, plain_of, signed_of, volts_of, roomed_of, digits_of, quotient_of};

use crate::{Unreadable, digit, find};

// Below this, one more digit leaves a number below 10^15.
const ROOM: u64 = 100_000_000_000_000;

// The powers of ten, of which an f64 holds these exactly.
const POWERS: [f64; 16] = [
    1.0,
    10.0,
    100.0,
    1000.0,
    10000.0,
    100000.0,
    1000000.0,
    10000000.0,
    100000000.0,
    1000000000.0,
    10000000000.0,
    100000000000.0,
    1000000000000.0,
    10000000000000.0,
    100000000000000.0,
    1000000000000000.0,
];

// A number with one more digit, where it has room for it.
#[tactic(auto, unfolding(crate::specs::Decimals::roomed_of))]
fn longer(value: u64, d: u64) -> u64
    requires { (value < 10 ^ 15) × (d < 10) }
    ensures { (result < 10 ^ 15) × (result ≡ roomed_of value d) }
{
    if value < ROOM { value * 10 + d } else { value }
}

// A number with the digits of a word after its own, which count to at most 15 in all.
#[tactic(auto, using(crate::proofs::Tens::digits_empty, crate::proofs::Tens::digits_malformed, crate::proofs::Tens::held_more, crate::proofs::Numerals::digits_more, crate::proofs::Numerals::digits_failed, crate::proofs::Numerals::digit_less))]
fn digits(word: &[u8], before: u64) -> Result<u64, Unreadable>
    requires { before < 10 ^ 15 }
    ensures { IfOk result (λ n. n < 10 ^ 15) × (result ≡ digits_of word.now before) }
{
    if word.is_empty() {
        return Err(Unreadable::Malformed);
    }
    let mut value = before;
    for b in word {
        let Some(d) = digit(*b, 10) else {
            return Err(Unreadable::Malformed);
        };
        value = longer(value, d);
    }
    Ok(value)
}

// Digits over a power of ten, where there are not too many.
#[tactic(auto, unfolding(crate::specs::Decimals::quotient_of))]
fn quotient(digits: u64, all: usize, places: usize) -> Result<f64, Unreadable>
    requires { (digits < 10 ^ 15) × (places ≤ all) }
    ensures { result ≡ quotient_of digits all places }
{
    if 15 < all {
        return Err(Unreadable::TooLarge);
    }
    Ok(std::num::nearest_u64_to_f64(digits) / POWERS[places])
}

// A word of digits, with a point among them or not.
#[tactic(auto, using(crate::proofs::Tens::plain_whole, crate::proofs::Tens::plain_malformed, crate::proofs::Tens::plain_broken, crate::proofs::Tens::plain_both, crate::proofs::Places::rest_of))]
fn plain(word: &[u8]) -> Result<f64, Unreadable>
    ensures { result ≡ plain_of word.now }
{
    let point = find(word, 0, b'.');
    let whole = digits(&word[..point], 0)?;
    if point == word.len() {
        return quotient(whole, word.len(), 0);
    }
    let after = point + 1;
    let all = digits(&word[after..], whole)?;
    quotient(all, word.len() - 1, word.len() - after)
}

// A word of digits with a sign or without.
#[tactic(auto, unfolding(crate::specs::Decimals::signed_of, crate::specs::Words::and_then))]
fn signed(word: &[u8]) -> Result<f64, Unreadable>
    ensures { result ≡ signed_of word.now }
{
    match word {
        [] => Err(Unreadable::Malformed),
        [b'+', rest @ ..] => plain(rest),
        [b'-', rest @ ..] => Ok(-plain(rest)?),
        _ => plain(word),
    }
}

// A word as volts.
#[tactic(auto, unfolding(crate::specs::Decimals::volts_of))]
pub fn volts_of(word: &[u8]) -> Result<f64, Unreadable>
    ensures { result ≡ volts_of word.now }
{
    match word {
        b"nan" => Ok(f64::NAN),
        b"inf" => Ok(f64::INFINITY),
        b"-inf" => Ok(f64::NEG_INFINITY),
        _ => signed(word),
    }
}

// The bits of an f64, in which minus zero and the last place show; of a NaN always the same.
pub fn pattern(v: f64) -> u64
    ensures { result ≡ to_bits binary64 v }
{
    if v == v {
        f64::to_bits(v)
    } else {
        0x7ff8_0000_0000_0000
    }
}
