// A line that has ended, and is gone on with.

ghost use Rattle.std.specs.Prelude.{◌≤◌, ◌<◌, ◌≡◌, false, length};
ghost use Rattle.linewise.specs.Lines.{Cuts};

use crate::{Line, Reached};

impl Line {
    // Goes on with a line that has ended: its bytes are those of one that has not.
    pub fn reopen(&mut self)
        ensures { self.new ≡ record { bytes = self.old.bytes; ended = false } }
    {
        self.ended = false;
    }

    // Reads a piece from a place on, up to the next line feed or its end, behind all bytes that are held, those of a line that has ended too.
    pub fn cut(&mut self, input: &[u8], from: usize) -> Reached
        requires { from < length input.now }
        ensures { (from < result.at) × (result.at ≤ length input.now) × (Cuts input.now from self.old.bytes self.new.bytes result) × (self.new.ended ≡ result.ended) }
    {
        self.reopen();
        self.next_cut(input, from)
    }
}

#[cfg(test)]
mod tests {
    use crate::Line;

    #[test]
    fn cuts_behind_a_line_that_has_ended(rt: HostRuntime) {
        let script = b"item\n 1";
        let mut line = Line::new();
        let ended = line.cut(script, 0);
        assert!(rt; ended.ended & (ended.at == 5));
        assert!(rt; line.held() == b"item".as_slice());
        let short = line.cut(script, 5);
        assert!(rt; !short.ended & (short.at == 7));
        assert!(rt; line.held() == b"item 1".as_slice());
    }

    #[test]
    fn begins_the_next_line_but_where_it_is_reopened(rt: HostRuntime) {
        let mut line = Line::new();
        let _ = line.next_cut(b"item\n", 0);
        let mut open = line;
        open.reopen();
        let _ = line.next_cut(b" 1", 0);
        let _ = open.next_cut(b" 1", 0);
        assert!(rt; line.held() == b" 1".as_slice());
        assert!(rt; open.held() == b"item 1".as_slice());
    }
}
