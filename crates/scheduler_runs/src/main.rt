// A fixed history of 840 calls on one scheduler, drawn by a linear congruential generator over 80 keys. Each line has a
// call with its arguments, its answer, and the earliest cycle after it. A write that fails is passed over.

#![tactic(auto)]

ghost use Rattle.std.specs.Prelude.{◌<◌, ◌^◌};

use scheduler::{EventKey, Scheduler};

#[derive(Clone, Copy)]
enum Call {
    At(EventKey, u64),
    Cancel(EventKey),
    IsScheduled(EventKey),
    PopDue(u64),
    Clear,
}

// Each piece of a line is written by itself, so that one that fails takes no other with it.
fn put(rt: &impl Print, text: &[u8]) {
    let _ = rt.write_all(text);
}

fn put_number(rt: &impl Print, n: u64) {
    let _ = print!(rt; " {n}");
}

fn put_key(rt: &impl Print, key: EventKey) {
    put_number(rt, key.owner as u64);
    put_number(rt, key.tag as u64);
}

fn draw(seed: u32) -> u32
    ensures { result < 2 ^ 31 }
{
    ((seed as u64 * 1103515245 + 12345) % 2147483648) as u32
}

fn key_of(seed: u32) -> EventKey {
    let k = seed / 65536 % 80;
    EventKey {
        owner: (k / 16) as u8,
        tag: (k % 16) as u8,
    }
}

// One of ten cycles that rise with the step, so that many are equal, or the largest.
fn cycle_of(step: u64, seed: u32) -> u64
    requires { step < 840 }
{
    let c = seed as u64 / 1024 % 12;
    if c > 9 { u64::MAX } else { step / 16 + c }
}

// A call while the scheduler fills up.
fn filling(kind: u32, key: EventKey, cycle: u64) -> Call {
    match kind {
        0 => Call::Cancel(key),
        1 => Call::IsScheduled(key),
        2 => Call::PopDue(cycle),
        _ => Call::At(key, cycle),
    }
}

// A call while it is emptied.
fn emptying(kind: u32, key: EventKey, cycle: u64, step: u64) -> Call {
    match kind {
        0..=2 => Call::At(key, cycle),
        3..=4 => Call::Cancel(key),
        5 => Call::IsScheduled(key),
        15 if step % 5 == 0 => Call::Clear,
        _ => Call::PopDue(cycle),
    }
}

// The call of a step.
fn call_of(step: u64, seed: u32) -> Call
    requires { step < 840 }
{
    let kind = seed / 65536 / 80 % 16;
    let key = key_of(seed);
    let cycle = cycle_of(step, seed);
    if step % 420 < 300 {
        filling(kind, key, cycle)
    } else {
        emptying(kind, key, cycle, step)
    }
}

fn at(rt: &impl Print, s: Scheduler, key: EventKey, cycle: u64) -> Scheduler {
    put(rt, b"at");
    put_key(rt, key);
    put_number(rt, cycle);
    match s.at(key, cycle) {
        Ok(scheduler) => {
            put_number(rt, 0);
            scheduler
        }
        Err(full) => {
            put_number(rt, full.number() as u64);
            s
        }
    }
}

fn is_scheduled(rt: &impl Print, s: Scheduler, key: EventKey) -> Scheduler {
    put(rt, b"is");
    put_key(rt, key);
    match s.is_scheduled(key) {
        Some(cycle) => put_number(rt, cycle),
        None => put(rt, b" never"),
    }
    s
}

fn pop_due(rt: &impl Print, s: Scheduler, now: u64) -> Scheduler {
    put(rt, b"pop");
    put_number(rt, now);
    let popping = s.pop_due(now);
    match popping.due {
        Some(event) => {
            put_key(rt, event.key);
            put_number(rt, event.cycle);
        }
        None => put(rt, b" nothing"),
    }
    popping.scheduler
}

// Makes a call, and prints it with its answer.
fn make(rt: &impl Print, s: Scheduler, call: Call) -> Scheduler {
    match call {
        Call::At(key, cycle) => at(rt, s, key, cycle),
        Call::Cancel(key) => {
            put(rt, b"cancel");
            put_key(rt, key);
            s.cancel(key)
        }
        Call::IsScheduled(key) => is_scheduled(rt, s, key),
        Call::PopDue(now) => pop_due(rt, s, now),
        Call::Clear => {
            put(rt, b"clear");
            s.clear()
        }
    }
}

fn main(rt: HostRuntime) {
    let mut s = Scheduler::new();
    let mut seed = 1;
    for step in 0..840 {
        seed = draw(seed);
        s = make(&rt, s, call_of(step, seed));
        put(&rt, b" next");
        put_number(&rt, s.next());
        put(&rt, b"\n");
    }
}
