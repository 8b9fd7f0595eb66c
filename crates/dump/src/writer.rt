// The lines of the changes, piece by piece.

ghost use Rattle.std.specs.Prelude.{◌≡◌, ◌+◌, ◌*◌, ◌/◌, ◌≤◌, length};
ghost use Rattle.verdict.specs.Changes.{change_of};
ghost use Rattle.figures.specs.Figures.{Wrote};
ghost use Rattle.dump.specs.Dump.{change_lines, last_cycle};
ghost use Rattle.dump.specs.Pieces.{begun, written_by, after};

use crate::text::{time_line, value_line};
use pieces::{Kind, Part, Whole};

// What is kept of the pieces so far: the record that is not whole, and the cycle of the last time line.
#[derive(Clone, Copy)]
pub struct Writer {
    part: Part,
    last: Option<u64>,
}

impl Writer {
    // Before a log's first piece.
    pub fn new() -> Writer
        ensures { result ≡ begun }
    {
        Writer {
            part: Part::new(),
            last: None,
        }
    }

    // Puts the lines of a record, none where it is no pin record; yields the place after them.
    #[tactic(auto, unfolding(verdict::specs::Changes::change_of, crate::specs::Dump::change_lines, crate::specs::Dump::last_cycle, crate::specs::Dump::value_line))]
    fn change(&mut self, whole: Whole, out: &mut [u8], at: usize) -> usize
        requires { at + 32 ≤ length out.old }
        ensures lines { Wrote out.old out.new at result (change_lines self.old.last (change_of whole)) }
        ensures last { self.new ≡ record self.old { last = last_cycle self.old.last (change_of whole) } }
        ensures room { result ≤ at + 32 }
    {
        if whole.kind() != Kind::Pin {
            return at;
        }
        let cycle = whole.cycle();
        let a = time_line(out, at, self.last, cycle);
        self.last = Some(cycle);
        value_line(out, a, whole.body as u64)
    }

    // Puts a piece's lines at a place of an area that holds 32 bytes for each record that it may make whole; yields the place after them.
    pub fn lines(&mut self, bytes: &[u8], out: &mut [u8], from: usize) -> usize
        requires { from + 32 * (length bytes.now / 10 + 1) ≤ length out.old }
        ensures lines { Wrote out.old out.new from result (written_by self.old bytes.now) }
        ensures writer { self.new ≡ after self.old bytes.now }
        ensures room { result ≤ length out.old }
    {
        let mut at = from;
        let mut records = self.part.records(bytes);
        // After a `for` over `&mut records` no proof knows what it left.
        while let Some(whole) = records.next() {
            at = self.change(whole, out, at);
        }
        self.part = records.remainder();
        at
    }
}
