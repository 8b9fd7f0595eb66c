// A reset: normal mode and no clock, so no event is to come, and the scene is the kept one without mode and outputs.

ghost use Rattle.std.specs.Prelude.{◌≡◌, false};
ghost use Rattle.held.specs.Held.{Kept};
ghost use Rattle.held.specs.Quick.{refusing};
ghost use Rattle.renewing.specs.Resets.{cleared_of, Resets};

use config::Config;
use counter::state::Timer;
use held::state::Held;
use scene::state::Scene;
use tick::setting::Channel;
use time::units::Cycle;
use wave::kinds::NORMAL;

// The scene of normal mode with no output, from that of any.
fn cleared(s: Scene, config: Config) -> Scene
    ensures { result ≡ cleared_of s config }
{
    let a = config.a;
    let b = config.b;
    let c = config.c;
    Scene {
        max: s.max,
        buffer: [0, 0, 0],
        kind: NORMAL,
        fast: false,
        ends: false,
        follows: false,
        pinned: false,
        pa: s.pa,
        pb: s.pb,
        pc: s.pc,
        fa: s.fa,
        fb: s.fb,
        fc: s.fc,
        tov: s.tov,
        icf: s.icf,
        capt: 0,
        timsk: s.timsk,
        id: s.id,
        a: Channel::of(a, 0, NORMAL, false),
        b: Channel::of(b, 0, NORMAL, false),
        c: Channel::of(c, 0, NORMAL, false),
    }
}

// The timer and the scene after a reset, whether its records fit the area, and how many bytes they are.
#[derive(Clone, Copy)]
pub struct Reset {
    pub fits: bool,
    pub timer: Timer,
    pub scene: Scene,
    pub written: usize,
}

// The timer is reset at a cycle that is accepted.
pub fn resetting(h: Held, cycle: u64, area: &mut [u8]) -> Reset
    requires { (Kept h) × (refusing false h.timer.clock.latest.0 h.next cycle ≡ 0) }
    ensures { Resets h cycle area.old result area.new }
{
    let t = h.timer;
    let w = t.reset(Cycle(cycle));
    let u = w.timer;
    let log = w.log;
    Reset {
        fits: log.write(area, 0),
        timer: u.accepted(Cycle(cycle)),
        scene: cleared(h.scene, t.config),
        written: log.len,
    }
}
