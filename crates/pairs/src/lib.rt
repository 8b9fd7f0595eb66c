// Lines of words KEY=VALUE, whatever keys they give.

#![tactic(auto)]

ghost use Rattle.std.specs.Prelude.{◌≡◌, ◌<◌, length};
ghost use Rattle.words.specs.Words.{words};
ghost use Rattle.pairs.specs.Pairs.{Kept, Takes, stepped, gathered};

use words::{Unreadable, find, skip, split};

// The keys that a kind of line gives.
pub trait Keyed: Copy {
    ghost kept: { Kept Self };

    // Their names in order, apart by spaces.
    fn names() -> &'static [u8]
        ensures { result.now ≡ kept.names };

    // Was a key given.
    fn given(&self, key: usize) -> bool
        requires { key < length (words kept.names) }
        ensures { result ≡ kept.given self.now key };

    // Takes a key's value.
    fn take(&mut self, key: usize, value: &[u8]) -> Result<(), Unreadable>
        requires { key < length (words kept.names) }
        ensures { Takes (kept.taken self.old key value.now) result self.new };
}

// Takes one more KEY=VALUE.
#[tactic(auto, unfolding(crate::specs::Pairs::stepped, crate::specs::Pairs::paired))]
fn step<K: Keyed>(keys: &mut K, word: &[u8]) -> Result<(), Unreadable>
    ensures { Takes (stepped K.kept keys.old word.now) result keys.new }
{
    let pair = split(K::names(), word).ok_or(Unreadable::UnknownKey)?;
    if keys.given(pair.key) {
        return Err(Unreadable::ExtraWord);
    }
    keys.take(pair.key, &word[pair.value..])
}

// The keys with those of a line from a place on, each in turn up to the first that cannot be read.
pub fn gathered<K: Keyed>(keys: K, line: &[u8], from: usize) -> Result<K, Unreadable>
    ensures { result ≡ gathered K.kept keys line.now from }
{
    let mut keys = keys;
    let mut at = skip(line, from);
    while at < line.len() {
        let end = find(line, at + 1, b' ');
        step(&mut keys, &line[at..end])?;
        at = skip(line, end);
    }
    Ok(keys)
}
