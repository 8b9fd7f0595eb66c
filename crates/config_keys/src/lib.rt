// A configuration's keys as a line gives them.

#![tactic(auto)]

ghost use Rattle.std.specs.Prelude.{◌≡◌, ◌<◌, take, is_none};
ghost use Rattle.std.specs.List.{list_any};
ghost use Rattle.config_keys.specs.Keys.{config_keys, named_of, plain_of, optional_of, written_of, value_of, no_keys, parts_of, compare_of, keys_of, whole_of, over_of, unit_value, pin_value, saying_of, value_at, number_at};

use config::{Config, Wire};
use pairs::Keyed;
use words::{Unreadable, find, numeral_in, place};

// A key's value, none where its unit is told to be absent.
pub type Value = Option<u64>;

// A value for each of the 25 keys in the order of their list, then compare C's address, flag, pin and force mask; none where it was not given.
#[derive(Clone, Copy)]
pub struct Keys {
    pub values: [Option<Value>; 29],
}

// A word that is one of so many names, as its place among them.
#[tactic(auto, unfolding(crate::specs::Keys::named_of, words::specs::Words::and_then))]
fn named(names: &[u8], word: &[u8]) -> Result<Value, Unreadable>
    ensures { result ≡ named_of names.now word.now }
{
    let n = place(names, word).ok_or(Unreadable::UnknownName)?;
    Ok(Some(n as u64))
}

// A number.
#[tactic(auto, unfolding(crate::specs::Keys::plain_of, words::specs::Words::and_then))]
fn plain(word: &[u8], radix: u64, most: u64) -> Result<Value, Unreadable>
    ensures { result ≡ plain_of word.now radix most }
{
    Ok(Some(numeral_in(word, radix, most)?))
}

// A number, or `-` where the unit is absent.
#[tactic(auto, unfolding(crate::specs::Keys::optional_of, figures::specs::Figures::codes))]
fn optional(word: &[u8], radix: u64, most: u64) -> Result<Value, Unreadable>
    ensures { result ≡ optional_of word.now radix most }
{
    match word {
        b"-" => Ok(None),
        _ => plain(word, radix, most),
    }
}

// How a key's value is written.
#[derive(Clone, Copy)]
enum Kind {
    Byte,
    Bit,
    Layout,
    Clock,
    // An address that is there, or PRR1:PRR0.
    Address,
    UnitAddress,
    Pin,
    // A mask, a flag or a group.
    Mask,
}

use Kind::{Address, Bit, Byte, Clock, Layout, Mask, Pin, UnitAddress};

// The kinds of the keys, by their places in the list.
const KINDS: [Kind; 29] = [
    Byte,
    Bit,
    Layout,
    Address,
    Address,
    Address,
    Mask,
    Mask,
    Address,
    UnitAddress,
    UnitAddress,
    UnitAddress,
    Mask,
    Mask,
    Mask,
    Mask,
    Pin,
    Pin,
    Mask,
    Pin,
    Pin,
    Clock,
    Mask,
    Address,
    Mask,
    Address,
    Mask,
    Pin,
    Mask,
];

// A value of a kind.
#[tactic(auto, unfolding(crate::specs::Keys::written_of, figures::specs::Figures::codes))]
fn written(kind: Kind, word: &[u8]) -> Result<Value, Unreadable>
    ensures { result ≡ written_of kind word.now }
{
    match kind {
        Byte => plain(word, 10, 0xff),
        Bit => plain(word, 10, 1),
        Layout => named(b"split single single0", word),
        Clock => named(b"sync t2", word),
        Address => plain(word, 16, 0xffff),
        UnitAddress => optional(word, 16, 0xffff),
        Pin => optional(word, 10, 0xff),
        Mask => plain(word, 16, 0xff),
    }
}

// A key's value as it is written, by the key's place in the list.
fn read(key: usize, word: &[u8]) -> Result<Value, Unreadable>
    requires { key < 29 }
    ensures { result ≡ value_of key word.now }
{
    written(KINDS[key], word)
}

// The value of a unit's key.
fn unit(present: bool, value: u16) -> Option<Value>
    ensures { result ≡ unit_value present value }
{
    Some(if present { Some(value as u64) } else { None })
}

// The value of a pin's key.
fn pin(wire: Wire) -> Option<Value>
    ensures { result ≡ pin_value wire }
{
    unit(wire.present, wire.pin as u16)
}

impl Keys {
    // Before any key.
    pub fn new() -> Keys
        ensures { result ≡ no_keys }
    {
        Keys { values: [None; 29] }
    }

    // The keys that say a configuration; compare C's own key says only whether it is there.
    #[tactic(auto, unfolding(crate::specs::Keys::saying_of))]
    pub fn saying(config: Config) -> Keys
        ensures { result ≡ saying_of config }
    {
        let Config { a, b, c, icr, .. } = config;
        Keys {
            values: [
                Some(Some(config.id as u64)),
                Some(Some(config.wide as u64)),
                Some(Some(config.layout as u64)),
                Some(Some(config.tccra as u64)),
                Some(Some(config.tccrb as u64)),
                Some(Some(config.foc as u64)),
                Some(Some(a.force as u64)),
                Some(Some(b.force as u64)),
                Some(Some(config.tcnt as u64)),
                unit(a.present, a.address),
                unit(b.present, b.address),
                unit(icr.present, icr.address),
                Some(Some(config.tov as u64)),
                Some(Some(a.flag as u64)),
                Some(Some(b.flag as u64)),
                Some(Some(icr.flag as u64)),
                pin(a.wire),
                pin(b.wire),
                unit(c.present, 0),
                pin(icr.wire),
                pin(config.t),
                Some(Some(config.clocks as u64)),
                Some(Some(config.group as u64)),
                Some(Some(config.prr as u64)),
                Some(Some(config.sleeprun as u64)),
                Some(Some(c.address as u64)),
                Some(Some(c.flag as u64)),
                pin(c.wire),
                Some(Some(c.force as u64)),
            ],
        }
    }

    // The keys with the parts of compare C.
    #[tactic(auto, using(crate::proofs::Reading::parts_more, crate::proofs::Reading::parts_stopped, crate::proofs::Reading::parts_all))]
    fn parts(mut self, word: &[u8]) -> Result<Keys, Unreadable>
        ensures { result ≡ parts_of self word.now }
    {
        self.values[18] = Some(Some(0));
        let mut at = 0;
        for key in 25..29 {
            let end = find(word, at, b':');
            self.values[key] = Some(read(key, &word[at..end])?);
            at = (end + 1).min(word.len());
        }
        Ok(self)
    }

    // The keys with compare C, which is OCR:FLAG:PIN:FORCEMASK.
    #[tactic(auto, unfolding(crate::specs::Keys::compare_of, figures::specs::Figures::codes))]
    fn compare(mut self, word: &[u8]) -> Result<Keys, Unreadable>
        ensures { result ≡ compare_of self word.now }
    {
        if word == b"-".as_slice() {
            self.values[18] = Some(None);
            return Ok(self);
        }
        if word.iter().filter(|b| **b == b':').count() != 3 {
            return Err(Unreadable::Malformed);
        }
        self.parts(word)
    }

    // The keys of a text from a place on.
    pub fn of(text: &[u8], from: usize) -> Result<Keys, Unreadable>
        ensures { result ≡ keys_of text.now from }
    {
        pairs::gathered(Keys::new(), text, from)
    }

    // Is one of the 25 missing.
    fn lacking(&self) -> bool
        ensures { result ≡ list_any is_none (take 25 self.now.values) }
    {
        self.values[..25].iter().any(|v| v.is_none())
    }

    // The keys where none of the 25 is missing.
    #[tactic(auto, unfolding(crate::specs::Keys::whole_of))]
    pub fn whole(self) -> Result<Keys, Unreadable>
        ensures { result ≡ whole_of self }
    {
        if self.lacking() {
            return Err(Unreadable::MissingWord);
        }
        Ok(self)
    }

    // The keys with those of another where they have none.
    #[tactic(auto, using(crate::proofs::Reading::fill_none, crate::proofs::Reading::fill_more, crate::proofs::Reading::fill_all))]
    pub fn over(mut self, other: Keys) -> Keys
        ensures { result ≡ over_of self other }
    {
        for key in 0..29 {
            self.values[key] = self.values[key].or(other.values[key]);
        }
        self
    }

    // A key's value; a key that was not given says as little as an absent unit's.
    pub fn value(&self, key: usize) -> Value
        requires { key < 29 }
        ensures { result ≡ value_at self.now key }
    {
        self.values[key].flatten()
    }

    // A key's number, 0 where it has none.
    pub fn number(&self, key: usize) -> u64
        requires { key < 29 }
        ensures { result ≡ number_at self.now key }
    {
        self.value(key).unwrap_or(0)
    }
}

impl Keyed for Keys {
    ghost kept = { config_keys };

    #[tactic(auto, unfolding(figures::specs::Figures::codes))]
    fn names() -> &'static [u8] {
        b"id wide layout tccra tccrb foc foca focb tcnt ocra ocrb icr tov ocfa ocfb icf pina pinb c icp t clock group prr sleeprun"
    }

    #[tactic(auto, using(crate::proofs::Reading::keys_many))]
    fn given(&self, key: usize) -> bool {
        self.values[key].is_some()
    }

    #[tactic(auto, using(crate::proofs::Reading::keys_many), unfolding(crate::specs::Keys::taken_of, words::specs::Words::and_then))]
    fn take(&mut self, key: usize, word: &[u8]) -> Result<(), Unreadable> {
        if key == 18 {
            *self = self.compare(word)?;
        } else {
            self.values[key] = Some(read(key, word)?);
        }
        Ok(())
    }
}
