// A setting's scene, and the next event in it.

ghost use Rattle.std.specs.Prelude.{◌≡◌, ◌-◌, ◌≤◌};
ghost use Rattle.scene.specs.Scene.{drives_pin, scene_of, nearer_of, climb_at, after_at, limit_at};

use tick::flags::masked;
use tick::setting::{Channel, Setting};
use wave::kinds::{ICR, OCRA, ends_at_top, fast_pwm};

// What no tick changes. fast tells F, ends whether the count goes to 0 at TOP, follows whether TOP is OCRnA, pinned whether a channel may drive
// its pin; pa to pc tell which compares there are. fa to fc, tov and icf are TIFR bits; capt is ICF where a count at TOP captures, else 0.
#[repr(C)]
#[derive(Clone, Copy)]
pub struct Scene {
    pub max: u32,
    pub buffer: [u32; 3],
    pub kind: u8,
    pub fast: bool,
    pub ends: bool,
    pub follows: bool,
    pub pinned: bool,
    pub pa: bool,
    pub pb: bool,
    pub pc: bool,
    pub fa: u8,
    pub fb: u8,
    pub fc: u8,
    pub tov: u8,
    pub icf: u8,
    pub capt: u8,
    pub timsk: u8,
    pub id: u8,
    pub a: Channel,
    pub b: Channel,
    pub c: Channel,
}

// May a channel drive its pin: in a match, or at BOTTOM.
fn drives(c: Channel) -> bool
    ensures { result ≡ drives_pin c }
{
    c.enabled | c.acts_at_bottom()
}

// A setting's scene.
pub fn scene_of(s: Setting) -> Scene
    ensures { result ≡ scene_of s }
{
    let wave = s.wave;
    let buffer = s.buffer;
    let a = s.a;
    let b = s.b;
    let c = s.c;
    let kind = wave.kind;
    Scene {
        max: wave.max,
        buffer,
        kind,
        fast: fast_pwm(kind),
        ends: ends_at_top(kind),
        follows: wave.source == OCRA,
        pinned: drives(a) | drives(b) | drives(c),
        pa: wave.a,
        pb: wave.b,
        pc: wave.c,
        fa: a.flag,
        fb: b.flag,
        fc: c.flag,
        tov: s.tov,
        icf: s.icf,
        capt: masked((wave.source == ICR) & s.capture, s.icf),
        timsk: s.timsk,
        id: s.id,
        a,
        b,
        c,
    }
}

// Ticks before a compare is met, else all there are. The way to one that lies behind wraps, and is longer than any.
fn nearer(present: bool, count: u32, compare: u32, all: u32) -> u32
    requires { all ≤ 4294967295 - count }
    ensures { (result ≡ nearer_of present count compare all) × (result ≤ all) }
{
    let way = if present {
        std::num::wrapping_sub_u32(compare, count)
    } else {
        all
    };
    if way <= all { way } else { all }
}

impl Scene {
    // Quiet ticks before the next event's.
    pub fn climb(self, count: u32, top: u32, ocr: [u32; 3]) -> u32
        requires { count ≤ self.max }
        ensures { result ≡ climb_at self count top ocr }
    {
        let all = if count <= top {
            top - count
        } else {
            self.max - count
        };
        let c = nearer(self.pc, count, ocr[2], all);
        let b = nearer(self.pb, count, ocr[1], c);
        nearer(self.pa, count, ocr[0], b)
    }

    // The count after an event's tick.
    pub fn after(self, count: u32, top: u32) -> u32
        requires { count ≤ self.max }
        ensures { result ≡ after_at self count top }
    {
        if ((count == top) & self.ends) | (count == self.max) {
            0
        } else {
            count + 1
        }
    }

    // TOP once the compares are loaded.
    pub fn limit(self, top: u32) -> u32
        ensures { result ≡ limit_at self top }
    {
        let buffer = self.buffer;
        if self.follows { buffer[0] } else { top }
    }
}
