// The words of a line, which are names and numbers, and why a line cannot be read.

#![tactic(auto)]

pub mod volts;

ghost use Rattle.std.specs.Prelude.{◌≡◌, ◌+◌, ◌*◌, ◌%◌, ◌<◌, ◌≤◌, min, length, drop, IfOk, IfSome};
ghost use Rattle.words.specs.Words.{sought, first_from, find_of, skip_of, words, exactly_of, place_of, split_of};
ghost use Rattle.words.specs.Reasons.{numbered};
ghost use Rattle.words.specs.Numbers.{digit_of, all_digits, longer_of, numeral_of, digits_numeral_of, next_of};

// Why a line cannot be read.
#[derive(Clone, Copy, PartialEq, Eq)]
pub enum Unreadable {
    UnknownCommand,
    UnknownKey,
    UnknownName,
    MissingWord,
    ExtraWord,
    Malformed,
    TooLarge,
    TooLong,
    NotOpened,
}

impl Unreadable {
    // The reason of a number, too long of every other.
    #[tactic(auto, unfolding(crate::specs::Reasons::numbered))]
    pub fn numbered(why: u8) -> Unreadable
        ensures { result ≡ numbered why }
    {
        match why {
            1 => Unreadable::UnknownCommand,
            2 => Unreadable::UnknownKey,
            3 => Unreadable::UnknownName,
            4 => Unreadable::MissingWord,
            5 => Unreadable::ExtraWord,
            6 => Unreadable::Malformed,
            7 => Unreadable::TooLarge,
            9 => Unreadable::NotOpened,
            _ => Unreadable::TooLong,
        }
    }
}

// A number of a line, and where its word ends.
#[derive(Clone, Copy)]
pub struct Taken {
    pub value: u64,
    pub end: usize,
}

// Of a word KEY=VALUE, the key's place in a list of names, and where the value begins.
#[derive(Clone, Copy)]
pub struct Pair {
    pub key: usize,
    pub value: usize,
}

// The first place from one on that holds a byte, or where another is wanted holds another, else the text's end.
#[tactic(auto, using(crate::proofs::Places::test_sought, crate::proofs::Places::first_none, crate::proofs::Places::first_here, crate::proofs::Places::first_later))]
pub fn seek(text: &[u8], from: usize, byte: u8, another: bool) -> usize
    ensures { (min from (length text.now) ≤ result) × (result ≤ length text.now) × (result ≡ first_from (sought byte another) text.now from) }
{
    for i in from..text.len() {
        if (text[i] == byte) != another {
            return i;
        }
    }
    text.len()
}

// The first place from one on that holds a byte, else the text's end.
pub fn find(text: &[u8], from: usize, byte: u8) -> usize
    ensures { (min from (length text.now) ≤ result) × (result ≤ length text.now) × (result ≡ find_of text.now from byte) }
{
    seek(text, from, byte, false)
}

// The first place from one on that holds no space, else the text's end.
pub fn skip(text: &[u8], from: usize) -> usize
    ensures { (min from (length text.now) ≤ result) × (result ≤ length text.now) × (result ≡ skip_of text.now from) }
{
    seek(text, from, b' ', true)
}

// How many words stand from a place on.
fn count(text: &[u8], from: usize) -> usize
    ensures { result ≡ length (words (drop from text.now)) }
{
    let mut n = 0;
    let mut at = skip(text, from);
    while at < text.len() {
        n += 1;
        at = skip(text, find(text, at + 1, b' '));
    }
    n
}

// Refuses a line that has not as many words left as wanted.
#[tactic(auto, unfolding(crate::specs::Words::counted))]
pub fn exactly(text: &[u8], at: usize, wanted: usize) -> Result<(), Unreadable>
    ensures { result ≡ exactly_of text.now at wanted }
{
    let n = count(text, at);
    if n < wanted {
        return Err(Unreadable::MissingWord);
    }
    if wanted < n {
        return Err(Unreadable::ExtraWord);
    }
    Ok(())
}

// A word's place in a list of names, which are apart by spaces.
pub fn place(names: &[u8], word: &[u8]) -> Option<usize>
    ensures { IfSome result (λ n. n < length (words names.now)) × (result ≡ place_of names.now word.now) }
{
    let mut n = 0;
    let mut at = skip(names, 0);
    while at < names.len() {
        let end = find(names, at + 1, b' ');
        if &names[at..end] == word {
            return Some(n);
        }
        n += 1;
        at = skip(names, end);
    }
    None
}

// Splits KEY=VALUE at its first sign, where the key is one of the names.
#[tactic(auto, unfolding(crate::specs::Words::split_at))]
pub fn split(names: &[u8], word: &[u8]) -> Option<Pair>
    ensures { IfSome result (λ p. (p.key < length (words names.now)) × (p.value ≤ length word.now)) × (result ≡ split_of names.now word.now) }
{
    let sign = find(word, 0, b'=');
    if sign == word.len() {
        return None;
    }
    let key = place(names, &word[..sign])?;
    Some(Pair {
        key,
        value: sign + 1,
    })
}

// The value of a digit of a radix; a byte that is no digit has the value 16.
#[tactic(auto, unfolding(crate::specs::Numbers::digit_of))]
fn digit(b: u8, radix: u64) -> Option<u64>
    ensures { result ≡ digit_of radix b }
{
    let value = match b {
        b'0'..=b'9' => b - b'0',
        b'A'..=b'F' => b - b'A' + 10,
        b'a'..=b'f' => b - b'a' + 10,
        _ => 16,
    };
    let value = value as u64;
    if value < radix { Some(value) } else { None }
}

// A number with one more digit, none where it exceeds the most.
#[tactic(auto, unfolding(crate::specs::Numbers::longer_of, crate::specs::Numbers::limited))]
fn longer(value: Option<u64>, d: u64, radix: u64, most: u64) -> Option<u64>
    ensures { result ≡ longer_of value d radix most }
{
    let longer = value?.checked_mul(radix)?.checked_add(d)?;
    if longer <= most { Some(longer) } else { None }
}

// A word as a number in a radix, at most as large as told; one that is malformed is so even where it is too large. In a radix above 16 a byte that is no digit has the value 16.
#[tactic(auto, using(crate::proofs::Numerals::numeral_empty, crate::proofs::Numerals::numeral_malformed, crate::proofs::Numerals::longer_limited, crate::proofs::Numerals::extended_more, crate::proofs::Numerals::digits_more, crate::proofs::Numerals::digits_failed, crate::proofs::Numerals::digit_less))]
pub fn numeral_in(word: &[u8], radix: u64, most: u64) -> Result<u64, Unreadable>
    ensures { IfOk result (λ n. n ≤ most) × (result ≡ numeral_of word.now radix most) }
{
    if word.is_empty() {
        return Err(Unreadable::Malformed);
    }
    let mut value = Some(0);
    for b in word {
        let Some(d) = digit(*b, radix) else {
            return Err(Unreadable::Malformed);
        };
        value = longer(value, d, radix, most);
    }
    value.ok_or(Unreadable::TooLarge)
}

// Is every byte a hexadecimal digit.
#[tactic(auto, using(crate::proofs::Numerals::digits_more, crate::proofs::Numerals::digits_failed))]
fn is_digits(word: &[u8]) -> bool
    ensures { result ≡ all_digits 16 word.now }
{
    for b in word {
        if digit(*b, 16).is_none() {
            return false;
        }
    }
    true
}

// A word of digits as a number in a radix, as `numeral_in` reads it; in a radix above 16 too a byte that is no digit makes it malformed.
#[tactic(auto, using(crate::proofs::Numerals::digits_numeral_small, crate::proofs::Numerals::numeral_undigits), unfolding(crate::specs::Numbers::digits_numeral_of))]
pub fn numeral(word: &[u8], radix: u64, most: u64) -> Result<u64, Unreadable>
    ensures { IfOk result (λ n. n ≤ most) × (result ≡ digits_numeral_of word.now radix most) × (radix ≤ 16 → result ≡ numeral_of word.now radix most) }
{
    if !is_digits(word) {
        return Err(Unreadable::Malformed);
    }
    numeral_in(word, radix, most)
}

// The next word as a number.
#[tactic(auto, unfolding(crate::specs::Numbers::next_of, crate::specs::Words::and_then))]
fn next(text: &[u8], at: usize, radix: u64, most: u64) -> Result<Taken, Unreadable>
    ensures { IfOk result (λ t. t.value ≤ most) × (result ≡ next_of text.now at radix most) }
{
    let start = skip(text, at);
    let end = find(text, start, b' ');
    let value = numeral_in(&text[start..end], radix, most)?;
    Ok(Taken { value, end })
}

// The next word as a decimal number.
pub fn decimal(text: &[u8], at: usize, most: u64) -> Result<Taken, Unreadable>
    ensures { IfOk result (λ t. t.value ≤ most) × (result ≡ next_of text.now at 10 most) }
{
    next(text, at, 10, most)
}

// The next word as a hexadecimal number.
pub fn hexadecimal(text: &[u8], at: usize, most: u64) -> Result<Taken, Unreadable>
    ensures { IfOk result (λ t. t.value ≤ most) × (result ≡ next_of text.now at 16 most) }
{
    next(text, at, 16, most)
}

// A number's lowest eight bits.
pub fn low8(n: u64) -> u8
    ensures { result ≡ n % 256 }
{
    (n % 256) as u8
}

// A number's lowest sixteen bits.
pub fn low16(n: u64) -> u16
    ensures { result ≡ n % 65536 }
{
    (n % 65536) as u16
}

#[cfg(test)]
mod tests {
    use super::*;

    #[test]
    fn reads_digits_alone_in_any_radix(rt: HostRuntime) {
        assert!(rt; numeral(b"ff", 16, 255) == Ok(255));
        assert!(rt; numeral(b"1F", 20, 1000) == Ok(35));
        assert!(rt; numeral(b"1g", 17, 1000) == Err(Unreadable::Malformed));
        assert!(rt; numeral_in(b"1g", 17, 1000) == Ok(33));
        assert!(rt; numeral(b"100", 10, 99) == Err(Unreadable::TooLarge));
        assert!(rt; numeral(b"", 10, 99) == Err(Unreadable::Malformed));
    }
}
