// The file that records go to, for the dump.

use bench_lines::desk::{Bench, Whose};
use room::Room;
use session::settles::Fault;
use std::fs::File;
use std::io::Write;
use std::rt::Files;
use words::Unreadable;

// Begins door.log anew in place of the file that records go to, which stays open where that fails.
fn anew<R: Files<File = File>>(rt: &R, file: &mut Option<File>) -> Result<(), Fault> {
    match File::create(rt, "door.log") {
        Ok(next) => {
            *file = Some(next);
            Ok(())
        }
        Err(_) => Err(Fault::Unread(Unreadable::NotOpened)),
    }
}

// Appends bytes to the file, which fails where there is none.
fn appended(file: &mut Option<File>, bytes: &[u8]) -> Result<(), Fault> {
    match file {
        Some(file) => match file.write_all(bytes) {
            Ok(()) => Ok(()),
            Err(_) => Err(Fault::NotWritten),
        },
        None => Err(Fault::NotWritten),
    }
}

// Does what a line asks: begins the file anew, or appends as many bytes as it has for it, of the area of whom the records are.
pub fn filed<R: Files<File = File>>(
    rt: &R,
    file: &mut Option<File>,
    b: Bench,
    room: &Room,
    one: &Room,
    two: &Room,
) -> Result<(), Fault> {
    if b.anew {
        return anew(rt, file);
    }
    let area = match b.whose {
        Whose::One => one,
        Whose::Two => two,
        _ => room,
    };
    if (b.kept == 0) | (b.kept > area.len()) {
        return Ok(());
    }
    appended(file, &area[..b.kept])
}
