// Texts and decimal numbers as bytes, put at a place of an area.

#![tactic(auto)]

ghost use Rattle.std.specs.Prelude.{◌+◌, ◌≤◌, length};
ghost use Rattle.figures.specs.Figures.{decimal, Wrote};

// Puts some bytes at a place; yields the place after them.
#[tactic(auto, using(crate::proofs::Writing::wrote_part))]
pub fn put(out: &mut [u8], at: usize, bytes: &[u8]) -> usize
    requires { at + length bytes.now ≤ length out.old }
    ensures { Wrote out.old out.new at result bytes.now }
{
    let end = at + bytes.len();
    out[at..end].copy_from_slice(bytes);
    end
}

// Puts a number in decimal; yields the place after it.
pub fn number(out: &mut [u8], at: usize, n: u64) -> usize
    requires { at + length (decimal n) ≤ length out.old }
    ensures { Wrote out.old out.new at result (decimal n) }
{
    if n < 10 {
        out[at] = (48 + n % 10) as u8;
        return at + 1;
    }
    let next = number(out, at, n / 10);
    out[next] = (48 + n % 10) as u8;
    next + 1
}
