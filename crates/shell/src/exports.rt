// What Rust and C call.

ghost use Rattle.std.specs.Prelude.{◌-◌, ◌≤◌, ◌^◌, true, false, ◌≡◌, eqb, ltb, length};
ghost use Rattle.counter.specs.Fresh.{started_of};
ghost use Rattle.tick.specs.Distance.{distance_of};
ghost use Rattle.counter.specs.Setting.{setting_of, moving_of};
ghost use Rattle.counter.specs.Valid.{Valid};
ghost use Rattle.passage.specs.Passage.{ticks};
ghost use Rattle.timer.specs.Calls.{answered};
ghost use Rattle.timer.specs.declared.calls.Call.{Call};
ghost use Rattle.held.specs.Held.{Kept};
ghost use Rattle.held.specs.Quick.{refusing, accepted_in};
ghost use Rattle.held.specs.Reply.{Serves, Served, count_low};
ghost use Rattle.climbing.specs.Rise.{strikes_of};
ghost use Rattle.held.specs.Write.{way_of, Waits, Latches, Stores};
ghost use Rattle.serving.specs.Asked.{call_of, answered_to};
ghost use Rattle.serving.specs.Looking.{LeftFor};
ghost use Rattle.renewing.specs.Edges.{catches_of};
ghost use Rattle.rewriting.specs.Writing.{Takes};
ghost use Rattle.replies.specs.Shapes.{shape};
ghost use Rattle.replies.specs.Starts.{Begins};
ghost use Rattle.shell.specs.Numbers.{High, Sees, ServedTo, Changes, Rewritten};

use climbing::{rising, strikes};
use config::Config;
use counter::state::Timer;
use held::quick::{clearing, counting, nexting, refusing, stilling};
use held::reply::Reply;
use held::state::{Held, NEVER, held_of};
use held::write::{buffering, way_of};
use renewing::edges::{catches, catching, ticking};
use renewing::halts::turning;
use renewing::onward::going;
use renewing::resets::resetting;
use replies::shapes::{Shape, held_shape};
use replies::starts::{Begun, start};
use rewriting::writing;
use serving::asked::Asked;
use serving::looking::looking;
use tick::distance::Distance;

// Yields the shape of `Held`, so that a caller can compare its own.
#[unsafe(no_mangle)]
pub extern "C" fn paddlemauve_shape() -> Shape
    ensures { result ≡ shape }
{
    held_shape()
}

// Yields a fresh timer of a configuration, or refusal 1 beside a timer of the least configuration.
#[unsafe(no_mangle)]
pub extern "C" fn paddlemauve_start(config: Config) -> Begun
    ensures { Begins (started_of config) result }
{
    start(config)
}

// Yields a timer with what is kept of it, where another call has left the timer alone.
#[unsafe(no_mangle)]
pub extern "C" fn paddlemauve_hold(t: Timer) -> Held
    requires { Valid t }
    ensures { (result.timer ≡ t) × Kept result }
{
    held_of(t)
}

// Yields the distance to the next event's tick, of the timer as it stands.
#[unsafe(no_mangle)]
pub extern "C" fn paddlemauve_distance(t: Timer) -> Distance
    requires { Valid t }
    ensures { result ≡ distance_of (setting_of t) (moving_of t) }
{
    t.distance()
}

// Whether a call is done, and then its reply.
#[derive(Clone, Copy)]
pub struct Seen {
    pub done: bool,
    pub reply: Reply,
}

// A call that leaves what is kept changes a few parts alone.
fn look(t: &mut Held, asked: Asked) -> Seen
    requires { Kept t.old }
    ensures { Sees t.old (call_of asked) asked.cycle t.new result }
{
    let a = looking(*t, asked);
    t.timer.counter = a.counter;
    t.timer.clock = a.clock;
    t.timer.registers.temp = a.temp;
    t.timer.flags = a.flags;
    t.timer.halts.routed = a.routed;
    t.scene.timsk = a.flags.timsk;
    Seen {
        done: a.done,
        reply: a.reply,
    }
}

// A call that halts the counter, lets it go on, or starts its prescaler anew.
fn turn(t: &mut Held, asked: Asked) -> Reply
    requires { (Kept t.old) × (LeftFor t.old (call_of asked) asked.cycle) × (12 ≤ asked.kind) × (asked.kind ≤ 16) }
    ensures { ServedTo t.old asked t.new result }
{
    let a = turning(*t, asked);
    t.timer.counter = a.counter;
    t.timer.clock = a.clock;
    t.timer.halts = a.halts;
    t.next = a.next;
    t.flags = a.flags;
    t.shift = a.shift;
    a.reply
}

// A capture.
fn catch(t: &mut Held, asked: Asked, area: &mut [u8]) -> Reply
    requires { (Kept t.old) × (LeftFor t.old (call_of asked) asked.cycle) × (9 ≤ asked.kind) × (asked.kind ≤ 10) × (catches_of t.old.timer asked ≡ true) }
    ensures { Serves (answered_to t.old.timer (call_of asked) asked.cycle area.old) t.new result area.new }
{
    let a = catching(*t, asked, area);
    t.timer.counter = a.counter;
    t.timer.clock = a.clock;
    t.timer.registers.icr = a.icr;
    t.timer.flags.tifr = a.tifr;
    a.reply
}

// A tick of the T pin.
fn tick(t: &mut Held, asked: Asked, area: &mut [u8]) -> Reply
    requires { (Kept t.old) × (LeftFor t.old (call_of asked) asked.cycle) × (9 ≤ asked.kind) × (asked.kind ≤ 10) × (catches_of t.old.timer asked ≡ false) }
    ensures { Serves (answered_to t.old.timer (call_of asked) asked.cycle area.old) t.new result area.new }
{
    let a = ticking(*t, asked, area);
    t.timer = a.timer;
    t.top = a.top;
    t.down = a.down;
    a.reply
}

// An edge that does something.
fn edge(t: &mut Held, asked: Asked, area: &mut [u8]) -> Reply
    requires { (Kept t.old) × (LeftFor t.old (call_of asked) asked.cycle) × (9 ≤ asked.kind) × (asked.kind ≤ 10) }
    ensures { Serves (answered_to t.old.timer (call_of asked) asked.cycle area.old) t.new result area.new }
{
    if catches(t.timer, asked) {
        return catch(t, asked, area);
    } else {
        return tick(t, asked, area);
    }
}

// A call that changes what is kept: one of 12 to 16 turns something, 9 and 10 are edges.
fn change(t: &mut Held, asked: Asked, area: &mut [u8]) -> Reply
    requires { (Kept t.old) × (LeftFor t.old (call_of asked) asked.cycle) × Changes asked }
    ensures { Serves (answered_to t.old.timer (call_of asked) asked.cycle area.old) t.new result area.new }
{
    if 11 < asked.kind {
        return turn(t, asked);
    } else {
        return edge(t, asked, area);
    }
}

// A call that is looked at first.
fn glance(t: &mut Held, asked: Asked, area: &mut [u8]) -> Reply
    requires { (Kept t.old) × (LeftFor t.old (call_of asked) asked.cycle → Changes asked) }
    ensures { Serves (answered_to t.old.timer (call_of asked) asked.cycle area.old) t.new result area.new }
{
    let a = look(t, asked);
    if a.done {
        return a.reply;
    } else {
        return change(t, asked, area);
    }
}

// A reset at a cycle that is accepted: nothing changes where its records do not fit.
fn reset(t: &mut Held, cycle: u64, area: &mut [u8]) -> Reply
    requires { (Kept t.old) × (refusing false t.old.timer.clock.latest.0 t.old.next cycle ≡ 0) }
    ensures { Serves (answered ticks t.old.timer Call.Reset cycle area.old) t.new result area.new }
{
    let a = resetting(*t, cycle, area);
    if a.fits {
        t.timer = a.timer;
        t.scene = a.scene;
        t.next = NEVER;
        t.top = a.scene.max;
        t.flags = 0;
        t.shift = 63;
        t.down = false;
        return Reply::new(0, 0, 0, a.written, NEVER, 0);
    } else {
        return Reply::turned(8);
    }
}

// A reset that is accepted, or a call that is looked at.
fn restart(t: &mut Held, asked: Asked, area: &mut [u8]) -> Reply
    requires { (Kept t.old) × (asked.kind ≡ 0 → ⊥) × (asked.kind ≡ 4 → ⊥) }
    ensures { Serves (answered_to t.old.timer (call_of asked) asked.cycle area.old) t.new result area.new }
{
    if (asked.kind == 17) & (refusing(false, t.timer.clock.latest.0, t.next, asked.cycle) == 0) {
        return reset(t, asked.cycle, area);
    } else {
        return glance(t, asked, area);
    }
}

// A write, or another call but the advance.
fn other(t: &mut Held, asked: Asked, area: &mut [u8]) -> Reply
    requires { (Kept t.old) × (asked.kind ≡ 0 → ⊥) }
    ensures { Serves (answered_to t.old.timer (call_of asked) asked.cycle area.old) t.new result area.new }
{
    if asked.kind == 4 {
        return paddlemauve_write(t, asked.cycle, area, asked.address, asked.value);
    } else {
        return restart(t, asked, area);
    }
}

// Any call on a lent timer.
#[unsafe(no_mangle)]
pub extern "C" fn paddlemauve_call(t: &mut Held, asked: Asked, area: &mut [u8]) -> Reply
    requires { Kept t.old }
    ensures { Serves (answered_to t.old.timer (call_of asked) asked.cycle area.old) t.new result area.new }
{
    if asked.kind == 0 {
        return paddlemauve_advance(t, asked.cycle, area);
    } else {
        return other(t, asked, area);
    }
}

// Time passes up to a cycle below the next event.
fn still(t: &mut Held, cycle: u64) -> Reply
    requires { (Kept t.old) × (refusing true t.old.timer.clock.latest.0 t.old.next cycle ≡ 0) }
    ensures { Served t.old.timer Call.Advance cycle t.new result }
{
    let a = stilling(t.timer.counter, t.timer.clock, t.shift, t.down, cycle);
    t.timer.counter = a.counter;
    t.timer.clock = a.clock;
    Reply::new(0, 6, 0, 0, t.next, t.flags)
}

// Event after event of a rising count.
fn climb(t: &mut Held, cycle: u64, area: &mut [u8]) -> Reply
    requires { (Kept t.old) × (strikes_of t.old.scene.kind t.old.timer.counter.blocked t.old.timer.clock.latest.0 t.old.next cycle (length area.old) ≡ true) × (t.old.next ≤ cycle) }
    ensures { Serves (answered ticks t.old.timer Call.Advance cycle area.old) t.new result area.new }
{
    let a = rising(*t, cycle, area);
    t.timer.counter.count = a.count;
    t.timer.counter.odometer = a.odometer;
    let ocr = a.ocr;
    t.timer.ocr = ocr;
    let oc = a.oc;
    t.timer.oc = oc;
    let drives = a.drives;
    t.timer.drives = drives;
    t.timer.flags.tifr = a.tifr;
    t.timer.clock.sync.0 = a.sync;
    t.timer.clock.latest.0 = a.latest;
    t.next = a.next;
    t.top = a.top;
    t.flags = a.flags;
    a.reply
}

// An advance that is not struck from what is kept.
fn onward(t: &mut Held, cycle: u64, area: &mut [u8]) -> Reply
    requires { Kept t.old }
    ensures { Serves (answered ticks t.old.timer Call.Advance cycle area.old) t.new result area.new }
{
    let a = going(*t, cycle, area);
    t.timer.counter = a.moving.counter;
    let ocr = a.moving.ocr;
    t.timer.ocr = ocr;
    let oc = a.moving.oc;
    t.timer.oc = oc;
    let drives = a.moving.drives;
    t.timer.drives = drives;
    t.timer.flags.tifr = a.moving.tifr;
    t.timer.clock = a.clock;
    t.next = a.next;
    t.top = a.top;
    t.flags = a.flags;
    t.shift = a.shift;
    t.down = a.down;
    a.reply
}

// An advance that works events, or is turned away: from what is kept where no match is blocked, the count rises and any tick's records fit.
fn work(t: &mut Held, cycle: u64, area: &mut [u8]) -> Reply
    requires { (Kept t.old) × (eqb (refusing true t.old.timer.clock.latest.0 t.old.next cycle) 0 ≡ false) }
    ensures { Serves (answered ticks t.old.timer Call.Advance cycle area.old) t.new result area.new }
{
    if strikes(
        t.scene.kind,
        t.timer.counter.blocked,
        t.timer.clock.latest.0,
        t.next,
        cycle,
        area.len(),
    ) {
        return climb(t, cycle, area);
    } else {
        return onward(t, cycle, area);
    }
}

// Time passes up to a cycle, or to the first tick whose records do not fit.
#[unsafe(no_mangle)]
pub extern "C" fn paddlemauve_advance(t: &mut Held, cycle: u64, area: &mut [u8]) -> Reply
    requires { Kept t.old }
    ensures { Serves (answered ticks t.old.timer Call.Advance cycle area.old) t.new result area.new }
{
    if refusing(true, t.timer.clock.latest.0, t.next, cycle) == 0 {
        return still(t, cycle);
    } else {
        return work(t, cycle, area);
    }
}

// A high byte is written: TEMP takes it.
fn latch(t: &mut Held, value: u8, cycle: u64) -> Reply
    requires { (Kept t.old) × (refusing false t.old.timer.clock.latest.0 t.old.next cycle ≡ 0) }
    ensures { Latches t.old value cycle t.new result }
{
    t.timer.registers.temp = value;
    t.timer.clock.latest.0 = cycle;
    Reply::new(0, 0, 0, 0, t.next, t.flags)
}

// The low byte of a compare that waits in its buffer is written.
fn buffer(t: &mut Held, place: u8, value: u8, cycle: u64) -> Reply
    requires { (Kept t.old) × Waits t.old place cycle }
    ensures { Stores t.old place value cycle t.new result }
{
    let a = buffering(*t, place, value, cycle);
    t.timer.counter = a.counter;
    t.timer.clock = a.clock;
    let buffer = a.buffer;
    t.timer.buffer = buffer;
    t.scene.buffer = buffer;
    a.reply
}

// Any register but a high byte, below the next event: what is kept is worked out anew.
fn rewrite(t: &mut Held, cycle: u64, area: &mut [u8], place: u8, value: u8) -> Reply
    requires { (Kept t.old) × Takes t.old place cycle }
    ensures { Rewritten t.old place value cycle area.old t.new result area.new }
{
    let s = writing(*t, place, value, cycle, area);
    *t = s.held;
    s.reply
}

// A write that waits in no buffer; one that is refused is looked at, and changes nothing.
fn upper(t: &mut Held, cycle: u64, area: &mut [u8], address: u16, value: u8, way: u8) -> Reply
    requires { (Kept t.old) × (way ≡ way_of t.old address cycle) × (16 ≤ way) }
    ensures { Serves (answered ticks t.old.timer (Call.Write address value) cycle area.old) t.new result area.new }
{
    if way < 32 {
        return rewrite(t, cycle, area, way - 16, value);
    } else {
        let asked = Asked {
            kind: 4,
            pin: 0,
            value,
            address,
            cycle,
        };
        return glance(t, asked, area);
    }
}

// Any write but to a high byte.
fn lower(t: &mut Held, cycle: u64, area: &mut [u8], address: u16, value: u8, way: u8) -> Reply
    requires { (Kept t.old) × (way ≡ way_of t.old address cycle) × (way ≡ 1 → ⊥) }
    ensures { Serves (answered ticks t.old.timer (Call.Write address value) cycle area.old) t.new result area.new }
{
    if way < 16 {
        return buffer(t, way, value, cycle);
    } else {
        return upper(t, cycle, area, address, value, way);
    }
}

// A register's byte is written. The address and the value come last, so that C passes the area in registers.
#[unsafe(no_mangle)]
pub extern "C" fn paddlemauve_write(
    t: &mut Held,
    cycle: u64,
    area: &mut [u8],
    address: u16,
    value: u8,
) -> Reply
    requires { Kept t.old }
    ensures { Serves (answered ticks t.old.timer (Call.Write address value) cycle area.old) t.new result area.new }
{
    let way = way_of(
        t.timer.config,
        t.scene.kind,
        t.timer.clock.latest.0,
        t.next,
        address,
        cycle,
    );
    if way == 1 {
        return latch(t, value, cycle);
    } else {
        return lower(t, cycle, area, address, value, way);
    }
}

// Yields the next event with its flags.
#[unsafe(no_mangle)]
pub extern "C" fn paddlemauve_next(t: &mut Held, cycle: u64) -> Reply
    requires { Kept t.old }
    ensures { Served t.old.timer Call.Next cycle t.new result }
{
    let a = nexting(t.next, t.flags, t.timer.clock.latest.0, cycle);
    t.timer.clock.latest.0 = a.latest;
    a.reply
}

// Is a cycle over the last that a call may have, 2^62 - 1.
fn too_large(cycle: u64) -> bool
    ensures { result ≡ ltb (2 ^ 62 - 1) cycle }
{
    0x3fff_ffff_ffff_ffff < cycle
}

// Makes a cycle the latest, or yields the refusal's number. It tests here, not by value, so that an accepted call jumps over the refusals.
fn accept(t: &mut Held, tested: bool, cycle: u64) -> u8
    requires { Kept t.old }
    ensures { (result ≡ refusing tested t.old.timer.clock.latest.0 t.old.next cycle) × (t.new ≡ accepted_in tested cycle t.old) }
{
    if too_large(cycle) {
        return 2;
    } else {
        if cycle < t.timer.clock.latest.0 {
            return 3;
        } else {
            if tested & (t.next <= cycle) {
                return 6;
            } else {
                t.timer.clock.latest.0 = cycle;
                return 0;
            }
        }
    }
}

// Yields TIFR.
#[unsafe(no_mangle)]
pub extern "C" fn paddlemauve_tifr(t: &mut Held, cycle: u64) -> Reply
    requires { Kept t.old }
    ensures { Served t.old.timer Call.Tifr cycle t.new result }
{
    let n = accept(t, true, cycle);
    if n == 0 {
        return Reply::byte(t.timer.flags.tifr, t.next, t.flags);
    } else {
        return Reply::turned(n);
    }
}

// Ones written to TIFR clear its bits.
#[unsafe(no_mangle)]
pub extern "C" fn paddlemauve_clear(t: &mut Held, ones: u8, cycle: u64) -> Reply
    requires { Kept t.old }
    ensures { Served t.old.timer (Call.WriteTifr ones) cycle t.new result }
{
    let n = accept(t, true, cycle);
    if n == 0 {
        t.timer.flags.tifr = clearing(t.timer.flags.tifr, ones);
        return Reply::new(0, 0, 0, 0, t.next, t.flags);
    } else {
        return Reply::turned(n);
    }
}

// Yields the low byte of TCNTn as a program reads it: it fills TEMP in a wide timer.
#[unsafe(no_mangle)]
pub extern "C" fn paddlemauve_count_low(t: &mut Held, cycle: u64) -> Reply
    requires { Kept t.old }
    ensures { Served t.old.timer (count_low t.old.timer) cycle t.new result }
{
    let n = accept(t, true, cycle);
    if n == 0 {
        let a = counting(
            t.timer.counter,
            t.timer.clock,
            t.timer.config.wide,
            t.timer.registers.temp,
            t.shift,
            t.down,
            cycle,
        );
        t.timer.counter = a.counter;
        t.timer.clock = a.clock;
        t.timer.registers.temp = a.temp;
        return Reply::byte(a.byte, t.next, t.flags);
    } else {
        return Reply::turned(n);
    }
}

// Yields the high byte of TCNTn, which is TEMP; refused with 4 where the timer is narrow.
#[unsafe(no_mangle)]
pub extern "C" fn paddlemauve_count_high(t: &mut Held, cycle: u64) -> Reply
    requires { Kept t.old }
    ensures { High t.old.timer cycle t.new result }
{
    if t.timer.config.wide {
        let n = accept(t, false, cycle);
        if n == 0 {
            return Reply::byte(t.timer.registers.temp, t.next, t.flags);
        } else {
            return Reply::turned(n);
        }
    } else {
        return Reply::turned(4);
    }
}
