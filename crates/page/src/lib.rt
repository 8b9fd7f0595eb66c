// Answers as bytes, on a page. A full page takes no more: the program writes it out between lines, while there is room for the longest answer.

#![tactic(auto)]

ghost use Rattle.std.specs.Prelude.{◌≡◌, ◌<◌, [], ◌∷◌, ◌++◌, length, take};
ghost use Rattle.figures.specs.Figures.{number};
ghost use Rattle.page.specs.Page.{Puts, hex_digit_ascii, last_digits, pair, pattern, flag, reason_of, unreadable_of};

use std::marker::Model;
use words::Unreadable;

// The bytes that a page has room for.
pub const SIZE: usize = 32768;

// Bytes one after the other. A contract sees the bytes that were put, as a list.
#[derive(Clone, Copy)]
pub struct Page {
    bytes: [u8; SIZE],
    len: usize,
}

// Zeros stand behind the bytes that were put, so that they alone say what a page is, as a copy needs.
impl Model for Page {
    ghost use Rattle.std.specs.Prelude.{ℕ, List};

    ghost Value = { List ℕ };

    ghost use Rattle.page.specs.Kept.{kept, kept_in, Packed};
    ghost use Rattle.std.proofs.Common.{sym};

    ghost view = { kept_in };

    ghost invariant = { Packed };

    ghost inverse = { kept };

    ghost inverse_ok = { λ p h. sym h.whole };
}

impl Page {
    // An empty page.
    pub fn new() -> Page
        ensures { result ≡ [] }
    {
        Page {
            bytes: [0; SIZE],
            len: 0,
        }
    }

    // How many bytes were put.
    pub fn len(&self) -> usize
        ensures { result ≡ length self.now }
    {
        self.written().len()
    }

    // The bytes that were put.
    pub fn written(&self) -> &[u8]
        ensures { result.now ≡ self.now }
    {
        &self.bytes[..self.len]
    }

    // Takes back what was put behind a place.
    pub fn truncate(&mut self, len: usize)
        ensures { self.new ≡ take len self.old }
    {
        if len < self.len {
            self.bytes[len..self.len].fill(0);
            self.len = len;
        }
    }

    // Puts a byte, unless the page is full.
    #[tactic(auto, using(crate::proofs::Sheets::put_here, crate::proofs::Sheets::put_full))]
    pub fn byte(&mut self, b: u8)
        ensures { Puts self.old self.new (b ∷ []) }
    {
        if self.len < SIZE {
            self.bytes[self.len] = b;
            self.len += 1;
        }
    }

    // Puts some bytes.
    #[tactic(auto, using(crate::proofs::Sheets::put_none, crate::proofs::Sheets::put_more, crate::proofs::Sheets::put_all))]
    pub fn text(&mut self, bytes: &[u8])
        ensures { Puts self.old self.new bytes.now }
    {
        for b in bytes {
            self.byte(*b);
        }
    }

    // Puts a label and a number's decimal digits.
    pub fn number(&mut self, label: &[u8], n: u64)
        ensures { Puts self.old self.new (label.now ++ number n) }
    {
        let mut digits = [0u8; 20];
        let k = figures::number(&mut digits, 0, n);
        self.text(label);
        self.text(&digits[..k]);
    }

    // Puts the last k hexadecimal digits of a number.
    #[tactic(auto, using(crate::proofs::Sheets::then, crate::proofs::Sheets::put_none))]
    fn last(&mut self, k: u8, n: u64)
        ensures { Puts self.old self.new (last_digits 16 k n) }
    {
        if k > 0 {
            self.last(k - 1, n / 16);
            self.byte(glyph((n % 16) as u8));
        }
    }

    // Puts a label and a number's sixteen hexadecimal digits.
    #[tactic(auto, using(crate::proofs::Sheets::then), unfolding(crate::specs::Page::pattern))]
    pub fn sixteen(&mut self, label: &[u8], n: u64)
        ensures { Puts self.old self.new (label.now ++ pattern n) }
    {
        self.text(label);
        self.last(16, n);
    }

    // Puts a byte's two hexadecimal digits.
    pub fn two(&mut self, b: u8)
        ensures { Puts self.old self.new (pair b) }
    {
        self.byte(glyph(b / 16));
        self.byte(glyph(b % 16));
    }

    // Puts a label and a register's two digits.
    #[tactic(auto, using(crate::proofs::Sheets::then))]
    pub fn register(&mut self, label: &[u8], b: u8)
        ensures { Puts self.old self.new (label.now ++ pair b) }
    {
        self.text(label);
        self.two(b);
    }

    // Puts a label and a bit as 0 or 1.
    #[tactic(auto, using(crate::proofs::Sheets::then), unfolding(crate::specs::Page::flag))]
    pub fn bit(&mut self, label: &[u8], b: bool)
        ensures { Puts self.old self.new (label.now ++ flag b) }
    {
        self.text(label);
        self.byte(if b { b'1' } else { b'0' });
    }

    // Puts that the nth line cannot be read, and why.
    #[tactic(auto, using(crate::proofs::Sheets::then), unfolding(crate::specs::Page::unreadable_of, figures::specs::Figures::codes))]
    pub fn unreadable(&mut self, nth: u64, why: Unreadable)
        ensures { Puts self.old self.new (unreadable_of nth why) }
    {
        self.number(b"error line ", nth);
        self.text(reason(why));
    }
}

// The hexadecimal digit of a number below sixteen.
fn glyph(n: u8) -> u8
    requires { n < 16 }
    ensures { result ≡ hex_digit_ascii n }
{
    if n < 10 { 48 + n } else { 87 + n }
}

// The words of why a line cannot be read.
#[tactic(auto, unfolding(crate::specs::Page::reason_of, figures::specs::Figures::codes))]
fn reason(why: Unreadable) -> &'static [u8]
    ensures { result.now ≡ reason_of why }
{
    match why {
        Unreadable::UnknownCommand => b": unknown command",
        Unreadable::UnknownKey => b": unknown key",
        Unreadable::UnknownName => b": unknown name",
        Unreadable::MissingWord => b": missing word",
        Unreadable::ExtraWord => b": extra word",
        Unreadable::Malformed => b": malformed number",
        Unreadable::TooLarge => b": number too large",
        Unreadable::TooLong => b": line too long",
        Unreadable::NotOpened => b": file not opened",
    }
}
