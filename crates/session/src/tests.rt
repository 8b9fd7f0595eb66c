// `turn` and `lines` go on with a line that has ended, where `next_turn` and `next_lines` begin the next.

use crate::runs::{lines, next_lines};
use bench_lines::desk::{Bench, Desk, Shelf};
use bench_lines::turns::{next_turn, turn};
use linewise::Line;
use list_lines::made::Items;
use page::Page;
use record_ring::BYTES;
use room::{FILL, ROOM};

// Holds a line that has ended.
fn ended(line: &mut Line) {
    line.clear();
    let _ = line.next_cut(b"advan\n", 0);
}

#[test]
fn turns_go_on(rt: HostRuntime) {
    let mut page = Page::new();
    let mut line = Line::new();
    let mut room = [FILL; ROOM];
    let mut area = [FILL; BYTES];
    let mut items = Items::new();
    ended(&mut line);
    let t = turn(
        Bench::new(),
        &mut page,
        b"ce 5 0\n",
        0,
        &mut line,
        &mut room,
        &mut area,
        &mut items,
    );
    assert!(rt; t.ended & (t.next == 7));
    assert!(rt; page.written() == b"no timer\n".as_slice());
    page.truncate(0);
    ended(&mut line);
    let _ = next_turn(
        Bench::new(),
        &mut page,
        b"ce 5 0\n",
        0,
        &mut line,
        &mut room,
        &mut area,
        &mut items,
    );
    assert!(rt; page.written() == b"error line 1: unknown command\n".as_slice());
}

#[test]
fn lines_go_on(rt: HostRuntime) {
    let mut page = Page::new();
    let mut line = Line::new();
    let mut room = [FILL; ROOM];
    let mut one = [FILL; ROOM];
    let mut two = [FILL; ROOM];
    let mut area = [FILL; BYTES];
    let mut items = Items::new();
    let desk = Desk {
        bench: Bench::new(),
        shelf: Shelf::new(),
    };
    ended(&mut line);
    let w = lines(
        desk,
        b"ce 5 0\nnext 7 0\nbo",
        0,
        &mut line,
        &mut room,
        &mut one,
        &mut two,
        &mut area,
        &mut items,
        &mut page,
    );
    assert!(rt; w.next == 18);
    assert!(rt; line.held() == b"bo".as_slice());
    assert!(rt; page.written() == b"no timer\nno timer\n".as_slice());
}

#[test]
fn next_lines_begin_anew(rt: HostRuntime) {
    let mut page = Page::new();
    let mut line = Line::new();
    let mut room = [FILL; ROOM];
    let mut one = [FILL; ROOM];
    let mut two = [FILL; ROOM];
    let mut area = [FILL; BYTES];
    let mut items = Items::new();
    let desk = Desk {
        bench: Bench::new(),
        shelf: Shelf::new(),
    };
    ended(&mut line);
    let w = next_lines(
        desk,
        b"ce 5 0\nnext 7 0\nbo",
        0,
        &mut line,
        &mut room,
        &mut one,
        &mut two,
        &mut area,
        &mut items,
        &mut page,
    );
    assert!(rt; w.next == 18);
    assert!(rt; page.written() == b"error line 1: unknown command\nno timer\n".as_slice());
}
