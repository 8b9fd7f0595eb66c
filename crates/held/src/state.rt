// A timer with what is kept of it.

ghost use Rattle.std.specs.Prelude.{◌≡◌, get_or};
ghost use Rattle.counter.specs.Valid.{Valid};
ghost use Rattle.wave.specs.Count.{falls, top_of};
ghost use Rattle.scene.specs.Scene.{scene_of};
ghost use Rattle.counter.specs.Modes.{mode_of, wave_of};
ghost use Rattle.counter.specs.Setting.{setting_of};
ghost use Rattle.held.specs.Held.{Kept, Foresees, shift_at};

use coming::coming;
use counter::state::Timer;
use scene::state::{Scene, scene_of};
use time::units::Ticks;

// No event is to come: past every cycle.
pub const NEVER: u64 = 0xffff_ffff_ffff_ffff;

// next is the next event's cycle, NEVER for none; flags are the TIFR bits that its tick will raise; shift is the divisor's
// power of two, 63 where the counter does not run; down tells whether the count falls.
#[repr(C)]
#[derive(Clone, Copy)]
pub struct Held {
    pub timer: Timer,
    pub scene: Scene,
    pub next: u64,
    pub top: u32,
    pub flags: u8,
    pub shift: u8,
    pub down: bool,
}

// The power of two that a divisor is; 63 where the counter does not run, so that no tick passes.
pub fn shift_of(divisor: u32, running: bool) -> u8
    ensures { result ≡ shift_at divisor running }
{
    if running {
        match divisor {
            8 => 3,
            32 => 5,
            64 => 6,
            128 => 7,
            256 => 8,
            1024 => 10,
            _ => 0,
        }
    } else {
        63
    }
}

// The next event and the shift of a timer.
#[derive(Clone, Copy)]
pub struct Ahead {
    pub next: u64,
    pub flags: u8,
    pub shift: u8,
}

// What lies ahead of a timer, from its setting's scene, TOP and the way of its count.
pub fn foreseen(scene: Scene, top: u32, down: bool, t: Timer) -> Ahead
    requires { (Valid t) × (scene ≡ scene_of (setting_of t)) × (top ≡ top_of (wave_of t (mode_of t)) (get_or t.ocr 0 0)) × (down ≡ falls (wave_of t (mode_of t)) t.counter) }
    ensures { Foresees t result }
{
    if t.running() {
        let counter = t.counter;
        let ocr = t.ocr;
        let e = coming(scene, down, counter, top, ocr);
        let p = t.prescaler();
        let clock = t.clock;
        let sync = clock.sync;
        let last = p.ticks(sync);
        let at = p.cycle(Ticks(last.0 + (e.ticks as u64)));
        Ahead {
            next: at.0,
            flags: e.flags,
            shift: shift_of(p.divisor, true),
        }
    } else {
        Ahead {
            next: NEVER,
            flags: 0,
            shift: 63,
        }
    }
}

// A timer with what is to be kept of it.
pub fn held_of(t: Timer) -> Held
    requires { Valid t }
    ensures { (result.timer ≡ t) × Kept result }
{
    let mode = t.mode();
    let wave = t.wave_at(mode);
    let counter = t.counter;
    let down = wave.falls(counter);
    let ocr = t.ocr;
    let top = wave.top(ocr[0]);
    let scene = scene_of(t.setting(mode, wave));
    let e = foreseen(scene, top, down, t);
    Held {
        timer: t,
        scene,
        next: e.next,
        top,
        flags: e.flags,
        shift: e.shift,
        down,
    }
}
