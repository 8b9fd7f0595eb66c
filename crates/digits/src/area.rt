// Bytes of a line stored in an area of any size.

ghost use Rattle.std.specs.Prelude.{◌≡◌, ◌/◌, length};
ghost use Rattle.std.specs.Simd.{first_chunks};
ghost use Rattle.words.specs.Numbers.{numeral_of};
ghost use Rattle.digits.specs.Spelling.{spelt, bytes_of};
ghost use Rattle.digits.specs.Storing.{stored, stored_of, Stores};

use words::{Unreadable, find, numeral_in, skip};

// The byte of two digits.
fn byte(pair: &[u8; 2]) -> Result<u8, Unreadable>
    ensures { result ≡ numeral_of pair.now 16 255 }
{
    let n = numeral_in(pair, 16, 0xff)?;
    Ok(n as u8)
}

// The pairs of a word; a digit that is left over is in none.
#[tactic(auto, using(std::proofs::Common::take_all))]
fn pairs(word: &[u8]) -> &[[u8; 2]]
    ensures front { result.now ≡ first_chunks 2 (length word.now / 2) word.now }
    ensures count { length result.now ≡ length word.now / 2 }
{
    word.as_chunks::<2>().0
}

// Stores the bytes of a word from the start of an area, up to the first pair that is none; yields how many, too large where there is no room for all of them.
fn taken(word: &[u8], out: &mut [u8]) -> Result<usize, Unreadable>
    ensures { Stores (spelt word.now (length out.old)) (stored word.now (length out.old)) out.old out.new result }
{
    if word.len() % 2 != 0 {
        return Err(Unreadable::Malformed);
    }
    let pairs = pairs(word);
    if out.len() < pairs.len() {
        return Err(Unreadable::TooLarge);
    }
    let mut n = 0;
    for pair in pairs {
        out[n] = byte(pair)?;
        n += 1;
    }
    Ok(n)
}

// Stores the bytes of a line's next word, none of `-`, from the start of an area; yields how many.
pub fn bytes(line: &[u8], at: usize, out: &mut [u8]) -> Result<usize, Unreadable>
    ensures { Stores (bytes_of line.now at (length out.old)) (stored_of line.now at (length out.old)) out.old out.new result }
{
    let start = skip(line, at);
    let end = find(line, start, b' ');
    let word = &line[start..end];
    if word == b"-".as_slice() {
        return Ok(0);
    }
    taken(word, out)
}
