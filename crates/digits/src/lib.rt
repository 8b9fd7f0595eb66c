// Bytes as a word of hexadecimal digits, two for each.

#![tactic(auto)]

pub mod area;

ghost use Rattle.std.specs.Prelude.{ℕ, ◌≡◌, ◌≤◌, List, length, take, IfOk};
ghost use Rattle.digits.specs.Spelling.{bytes_of};

use std::marker::Model;
use words::Unreadable;

// At most N bytes. A contract sees them, as a list.
#[derive(Drop)]
pub struct Bytes<const N: usize> {
    bytes: [u8; N],
    len: usize,
}

impl<const N: usize> Model for Bytes<N> {
    ghost Value = { List ℕ };

    ghost view = { λ b. take b.len b.bytes };

    ghost invariant = { λ b. b.len ≤ N };
}

impl<const N: usize> Bytes<N> {
    // The bytes.
    pub fn as_slice(&self) -> &[u8]
        ensures { result.now ≡ self.now }
    {
        &self.bytes[..self.len]
    }

    // The bytes of a line's next word, none of `-`.
    pub fn of(line: &[u8], at: usize) -> Result<Bytes<N>, Unreadable>
        ensures { IfOk result (λ b. length b ≤ N) × (result ≡ bytes_of line.now at N) }
    {
        let mut room = [0; N];
        let len = area::bytes(line, at, &mut room)?;
        Ok(Bytes { bytes: room, len })
    }
}
