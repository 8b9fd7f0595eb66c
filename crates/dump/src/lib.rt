// A record log as a value change dump: of a whole log, or piece by piece after the check of `verdict`.

#![tactic(auto)]

mod text;
mod wires;
pub mod writer;

ghost use Rattle.std.specs.Prelude.{◌≡◌, cond, length};
ghost use Rattle.dump.specs.Answers.{Answers, lines_short, header_outcome, lines_outcome, dump_outcome};
ghost use Rattle.dump.specs.Pieces.{after};

use crate::wires::put_header;
use crate::writer::Writer;
use verdict::Check;
use verdict::judge::Fault;

// The bytes of the longest header: two lines of 21, and 256 of 27.
const HEADER: usize = 6954;

// Why a dump is not written; the area is as it was.
#[derive(Clone, Copy, PartialEq, Eq)]
pub enum DumpError {
    // The log is refused.
    Refused(Fault),
    // The area is too short.
    Short,
}

// Puts the lines before the changes, of the log that was checked; they take at most 6,954 bytes; yields how many.
#[tactic(auto, unfolding(crate::specs::Answers::header_outcome))]
pub fn header(check: &Check, out: &mut [u8]) -> Result<usize, DumpError>
    ensures { Answers (header_outcome check.now out.old) result out.new }
{
    if out.len() < HEADER {
        return Err(DumpError::Short);
    }
    Ok(put_header(check.pins(), out))
}

// Puts the lines of a log's next piece, cut anywhere; the area has 32 bytes for each record that it may make whole; yields how many bytes were put.
#[tactic(auto, unfolding(crate::specs::Answers::lines_outcome))]
pub fn piece(writer: &mut Writer, bytes: &[u8], out: &mut [u8]) -> Result<usize, DumpError>
    ensures answers { Answers (lines_outcome writer.old bytes.now out.old) result out.new }
    ensures writer { writer.new ≡ cond (lines_short (length out.old) bytes.now) writer.old (after writer.old bytes.now) }
{
    if out.len() / 32 < bytes.len() / 10 + 1 {
        return Err(DumpError::Short);
    }
    Ok(writer.lines(bytes, out, 0))
}

// Puts the dump of a whole log; the area has 6,954 bytes for its header, and 32 for each record and one more; yields how many bytes were put.
#[tactic(auto, unfolding(crate::specs::Answers::dump_outcome))]
pub fn dump(log: &[u8], out: &mut [u8]) -> Result<usize, DumpError>
    ensures { Answers (dump_outcome log.now out.old) result out.new }
{
    let mut check = Check::new();
    check.piece(log);
    if let Some(fault) = check.refusal() {
        return Err(DumpError::Refused(fault));
    }
    if out.len() < HEADER || (out.len() - HEADER) / 32 < log.len() / 10 + 1 {
        return Err(DumpError::Short);
    }
    let a = put_header(check.pins(), out);
    Ok(Writer::new().lines(log, out, a))
}
