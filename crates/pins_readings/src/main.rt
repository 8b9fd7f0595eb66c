// Runs the pin calls on the bench's readings, at the borders and where they are refused: a line for each case, which `stdout` holds.
// A write that fails is passed over.

#![tactic(auto)]

use pins::{Drive, Pin, Refusal, Resolved};
use words::volts::pattern;

// Each piece of a line is written by itself, so that one that fails takes no other with it.
fn put(rt: &impl Print, text: &str) {
    let _ = rt.write_all(text.as_bytes());
}

fn put_number(rt: &impl Print, text: &str, n: u8) {
    put(rt, text);
    let _ = print!(rt; "{n}");
}

fn put_bool(rt: &impl Print, text: &str, b: bool) {
    put(rt, text);
    put(rt, if b { "yes" } else { "no" });
}

// A resolved pin, its volts by their bits.
fn put_resolved(rt: &impl Print, resolved: Result<Resolved, Refusal>) {
    match resolved {
        Ok(Resolved { pin, changed }) => {
            put_number(rt, ": level ", pin.level);
            put(rt, " volts ");
            let volts = pattern(pin.volts);
            let _ = print!(rt; "{volts:016x}");
            put_bool(rt, " changed ", changed);
        }
        Err(refusal) => put_number(rt, ": refused ", refusal.number()),
    }
}

fn put_bit(rt: &impl Print, bit: Result<u8, Refusal>) {
    match bit {
        Ok(n) => put_number(rt, " ", n),
        Err(refusal) => put_number(rt, " refused ", refusal.number()),
    }
}

fn put_contention(rt: &impl Print, contention: Result<bool, Refusal>) {
    match contention {
        Ok(b) => put_bool(rt, " ", b),
        Err(refusal) => put_number(rt, " refused ", refusal.number()),
    }
}

// One case: its name and what the four calls answer.
fn show(rt: &impl Print, name: &str, pin: Pin, drive: Drive, vcc: f64) {
    put(rt, name);
    put_resolved(rt, pin.resolve(drive, vcc));
    put(rt, ", driven");
    put_bit(rt, pin.driven());
    put(rt, ", direction");
    put_bit(rt, pin.effective_dir());
    put(rt, ", contention");
    put_contention(rt, pin.contention(drive));
    put(rt, "\n");
}

// An input without pulls that holds a level, and was last resolved at 0.25 V.
fn held(level: u8) -> Pin {
    Pin {
        dir: 0,
        out: 0,
        pullup: 0,
        pulldown: 0,
        ovenable: 0,
        ovvalue: 0,
        reserved: false,
        ddoe: 0,
        ddov: 0,
        level,
        volts: 0.25,
    }
}

// An analog input from either level.
fn show_held(rt: &impl Print, name: &str, volts: f64, vcc: f64) {
    for (level, held_at) in [(0, "held 0, "), (1, "held 1, ")] {
        put(rt, held_at);
        show(rt, name, held(level), Drive::Analog(volts), vcc);
    }
}

// A pin under each drive.
fn show_drives(rt: &impl Print, name: &str, pin: Pin) {
    let drives = [
        ("floating, ", Drive::Float),
        ("low, ", Drive::Low),
        ("high, ", Drive::High),
        ("0.0 V, ", Drive::Analog(0.0)),
    ];
    for (connected, drive) in drives {
        put(rt, connected);
        show(rt, name, pin, drive, 5.0);
    }
}

fn show_readings(rt: &impl Print) {
    for (name, volts) in [("3.0 V", 3.0), ("1.5 V", 1.5), ("2.0 V", 2.0)] {
        show_held(rt, name, volts, 5.0);
    }
}

// One step of the f64 to either side. At 3.3 V the products are a step below 1.98 and 0.99.
fn show_thresholds(rt: &impl Print) {
    let thresholds = [
        ("just below 3.0 V", 2.9999999999999996, 5.0),
        ("just above 3.0 V", 3.0000000000000004, 5.0),
        ("just below 1.5 V", 1.4999999999999998, 5.0),
        ("just above 1.5 V", 1.5000000000000002, 5.0),
        ("0.6 of 3.3 V", 1.9799999999999998, 3.3),
        ("below 0.6 of 3.3", 1.9799999999999995, 3.3),
        ("0.3 of 3.3 V", 0.9899999999999999, 3.3),
        ("above 0.3 of 3.3", 0.99, 3.3),
    ];
    for (name, volts, vcc) in thresholds {
        show_held(rt, name, volts, vcc);
    }
}

fn show_clamping(rt: &impl Print) {
    let borders = [
        ("minus zero", -0.0),
        ("just below zero", -5e-324),
        ("-1.0 V", -1.0),
        ("5.0 V", 5.0),
        ("just above 5.0 V", 5.000000000000001),
        ("7.0 V", 7.0),
    ];
    for (name, volts) in borders {
        show_held(rt, name, volts, 5.0);
    }
}

fn show_inputs(rt: &impl Print) {
    let low = held(0);
    let high = held(1);
    show_drives(rt, "input at 0", low);
    show_drives(rt, "input at 1", high);
    show_drives(rt, "pull-up", Pin { pullup: 1, ..low });
    show_drives(
        rt,
        "pull-down",
        Pin {
            pulldown: 1,
            ..high
        },
    );
    show_drives(
        rt,
        "both pulls",
        Pin {
            pullup: 1,
            pulldown: 1,
            ..low
        },
    );
}

// Outputs, and what turns a pin to one or away from it.
fn show_outputs(rt: &impl Print) {
    let zero = Pin { dir: 1, ..held(0) };
    let one = Pin { out: 1, ..zero };
    show_drives(rt, "output 0", Pin { level: 1, ..zero });
    show_drives(rt, "output 1", one);
    show_drives(
        rt,
        "0 overridden by 1",
        Pin {
            ovenable: 1,
            ovvalue: 1,
            level: 1,
            ..zero
        },
    );
    show_drives(rt, "1 overridden by 0", Pin { ovenable: 1, ..one });
    show_drives(rt, "override off", Pin { ovvalue: 1, ..zero });
    show_drives(
        rt,
        "turned to output",
        Pin {
            out: 1,
            ddoe: 1,
            ddov: 1,
            ..held(0)
        },
    );
    show_drives(rt, "turned to input", Pin { ddoe: 1, ..one });
    show_drives(
        rt,
        "not turned",
        Pin {
            out: 1,
            ddov: 1,
            ..held(1)
        },
    );
    show_drives(
        rt,
        "reserved output",
        Pin {
            reserved: true,
            level: 1,
            ..one
        },
    );
}

fn show_bad_volts(rt: &impl Print) {
    let given = [
        ("NaN volts", f64::NAN),
        ("infinite volts", f64::INFINITY),
        ("-infinite volts", f64::NEG_INFINITY),
    ];
    for (name, volts) in given {
        show(rt, name, held(0), Drive::Analog(volts), 5.0);
    }
    let supplies = [
        ("NaN Vcc", f64::NAN),
        ("infinite Vcc", f64::INFINITY),
        ("Vcc zero", 0.0),
        ("Vcc -5.0", -5.0),
    ];
    for (name, vcc) in supplies {
        show(rt, name, held(0), Drive::High, vcc);
    }
    show(rt, "Vcc zero, level 2", held(2), Drive::High, 0.0);
    show(
        rt,
        "NaN volts, level 2",
        held(2),
        Drive::Analog(f64::NAN),
        5.0,
    );
}

fn show_bad_bits(rt: &impl Print) {
    let pin = held(0);
    let bad = [
        ("dir 2", Pin { dir: 2, ..pin }),
        ("out 2", Pin { out: 2, ..pin }),
        ("pullup 2", Pin { pullup: 2, ..pin }),
        ("pulldown 2", Pin { pulldown: 2, ..pin }),
        ("ovenable 2", Pin { ovenable: 2, ..pin }),
        ("ovvalue 2", Pin { ovvalue: 2, ..pin }),
        ("ddoe 2", Pin { ddoe: 2, ..pin }),
        ("ddov 2", Pin { ddov: 2, ..pin }),
        ("level 2", Pin { level: 2, ..pin }),
    ];
    for (name, pin) in bad {
        show_drives(rt, name, pin);
    }
}

fn main(rt: HostRuntime) {
    show_readings(&rt);
    show_thresholds(&rt);
    show_clamping(&rt);
    show_inputs(&rt);
    show_outputs(&rt);
    show_bad_volts(&rt);
    show_bad_bits(&rt);
}
