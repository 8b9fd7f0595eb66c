// A script's lines, cut at line feeds. The script comes in pieces: what a piece has of a line is held until the rest comes.

#![tactic(auto)]

mod reopened;

ghost use Rattle.std.specs.Prelude.{◌≤◌, ◌<◌, ◌≡◌, ◌∷◌, [], false, length, nat_lt};
ghost use Rattle.linewise.specs.Lines.{Holds, Cuts};
ghost use Rattle.linewise.specs.Texts.{fresh, going};

use std::marker::Model;
use words::find;

// The bytes of the longest line that can be read.
pub const LONGEST: usize = 500;

// A line's bytes so far, one more than the longest where it is too long, and whether it has ended. A contract sees those bytes, as a list, and that mark.
#[derive(Clone, Copy)]
pub struct Line {
    bytes: [u8; LONGEST + 1],
    len: usize,
    ended: bool,
}

// Zeros stand behind the bytes that are held, so that they and the mark alone say what a line is, as a copy needs.
impl Model for Line {
    ghost use Rattle.linewise.specs.Texts.{Text};

    ghost Value = { Text };

    ghost use Rattle.linewise.specs.Kept.{kept, kept_in, Packed};
    ghost use Rattle.std.proofs.Common.{sym};

    ghost view = { kept_in };

    ghost invariant = { Packed };

    ghost inverse = { kept };

    ghost inverse_ok = { λ l h. sym h.whole };
}

// How far a piece was read, and whether the line ended there.
#[derive(Clone, Copy)]
pub struct Reached {
    pub at: usize,
    pub ended: bool,
}

impl Line {
    // A line that has not begun.
    pub fn new() -> Line
        ensures { result ≡ fresh }
    {
        Line {
            bytes: [0; LONGEST + 1],
            len: 0,
            ended: false,
        }
    }

    // Forgets the line: the next begins.
    pub fn clear(&mut self)
        ensures { self.new ≡ fresh }
    {
        self.bytes = [0; LONGEST + 1];
        self.len = 0;
        self.ended = false;
    }

    // Forgets a line that has ended: the next begins.
    fn begin(&mut self)
        ensures { (self.new.bytes ≡ going self.old) × (self.new.ended ≡ false) }
    {
        if self.ended {
            self.clear();
        }
    }

    // The bytes that are held.
    pub fn held(&self) -> &[u8]
        ensures { result.now ≡ self.now.bytes }
    {
        &self.bytes[..self.len]
    }

    // Is the line longer than can be read.
    pub fn is_too_long(&self) -> bool
        ensures { result ≡ nat_lt 500 (length self.now.bytes) }
    {
        self.held().len() > LONGEST
    }

    // Holds a byte, unless the line is too long already.
    #[tactic(auto, using(crate::proofs::Holding::hold_at, crate::proofs::Holding::hold_over))]
    fn push(&mut self, b: u8)
        ensures { (Holds self.old.bytes self.new.bytes (b ∷ [])) × (self.new.ended ≡ self.old.ended) }
    {
        if self.len <= LONGEST {
            self.bytes[self.len] = b;
            self.len += 1;
        }
    }

    // Holds some bytes.
    #[tactic(auto, using(crate::proofs::Holding::hold_none, crate::proofs::Holding::hold_more, crate::proofs::Holding::hold_all))]
    fn extend(&mut self, bytes: &[u8])
        ensures { (Holds self.old.bytes self.new.bytes bytes.now) × (self.new.ended ≡ self.old.ended) }
    {
        for b in bytes {
            self.push(*b);
        }
    }

    // Reads a piece from a place on, up to the next line feed or its end. A line that has ended is held until the next is read.
    pub fn next_cut(&mut self, input: &[u8], from: usize) -> Reached
        requires { from < length input.now }
        ensures { (from < result.at) × (result.at ≤ length input.now) × (Cuts input.now from (going self.old) self.new.bytes result) × (self.new.ended ≡ result.ended) }
    {
        self.begin();
        let end = find(input, from, b'\n');
        self.extend(&input[from..end]);
        if end < input.len() {
            self.ended = true;
            return Reached {
                at: end + 1,
                ended: true,
            };
        }
        Reached {
            at: end,
            ended: false,
        }
    }
}
