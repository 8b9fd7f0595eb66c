// The second pass: the dump of a log that was checked.

ghost use Rattle.std.specs.Prelude.{◌≤◌, ◌<◌, ◌^◌, ◌≡◌, length};
ghost use Rattle.verdict.specs.Check.{pins_in};
ghost use Rattle.dump.specs.Pieces.{header_of, written_by, after};
ghost use Rattle.soak.specs.Input.{opened};
ghost use Rattle.soak.specs.Output.{wrote};
ghost use Rattle.soak.specs.Passes.{WritesChunks, Writes};

use crate::input::{Input, Reader};
use crate::output::Sink;
use dump::writer::Writer;
use std::fs::File;
use std::io::Write;
use std::rt::Files;
use verdict::Check;

// Writes the lines before the changes.
fn write_header<W: Write>(check: &Check, out: &mut Sink<W>)
    requires { out.old.output.bytes ≡ 0 }
    ensures output { out.new.output ≡ wrote out.old.output (header_of (pins_in check.now)) }
    ensures most { out.new.output.bytes ≤ 6954 }
{
    let mut lines = [0u8; 6954];
    let n = dump::header(check, &mut lines).unwrap();
    out.write(&lines[..n]);
}

// Writes the lines of a chunk.
fn write_lines<W: Write>(writer: &mut Writer, chunk: &[u8], out: &mut Sink<W>)
    requires chunk { length chunk.now ≤ 640 }
    requires room { out.old.output.bytes < 2 ^ 63 }
    ensures writer { writer.new ≡ after writer.old chunk.now }
    ensures output { out.new.output ≡ wrote out.old.output (written_by writer.old chunk.now) }
    ensures most { length (written_by writer.old chunk.now) ≤ 2080 }
{
    let mut lines = [0u8; 2080];
    let n = dump::piece(writer, chunk, &mut lines).unwrap();
    out.write(&lines[..n]);
}

// Writes the lines of an open file chunk by chunk.
fn write_chunks<W: Write>(file: &mut Reader, out: &mut Sink<W>)
    requires opened { file.old.input ≡ opened }
    requires room { out.old.output.bytes ≤ 6954 }
    ensures { WritesChunks out.old.output file.new.input out.new.output }
{
    let mut area = [0u8; 640];
    let mut writer = Writer::new();
    while let Some(n) = file.read(&mut area) {
        write_lines(&mut writer, &area[..n], out);
    }
}

// Opens a file again and writes its dump; nothing where it cannot be opened.
pub fn write_file<R: Files<File = File>, W: Write>(
    rt: &R,
    path: &[u8],
    check: &Check,
    out: &mut Sink<W>,
) -> Input
    requires { out.old.output.bytes ≡ 0 }
    ensures { Writes check.now out.old.output result out.new.output }
{
    let Some(mut file) = Reader::open(rt, path) else {
        return Input::missing();
    };
    write_header(check, out);
    write_chunks(&mut file, out);
    file.close()
}
