// The outputs of an event's tick, by the bits that it raises.

ghost use Rattle.std.specs.Prelude.{◌+◌, ◌≤◌, length};
ghost use Rattle.tick.specs.Outputs.{begun, Wrote};
ghost use Rattle.scene.specs.Scene.{driven_of};

use crate::bits::on;
use crate::state::Scene;
use tick::outputs::{Outputs, bottoms};
use time::units::Cycle;

impl Scene {
    // The outputs after the matches whose bits are raised, then at BOTTOM. In N, C and F no level depends on the way of the count.
    // A bit is tested here, so that the outputs stay where they are for one that is not raised.
    pub fn driven(
        self,
        up: u8,
        bottom: bool,
        start: Outputs,
        area: &mut [u8],
        cycle: Cycle,
    ) -> Outputs
        requires { start.to + 60 ≤ length area.old }
        ensures { Wrote (driven_of self up bottom (begun start)) cycle.0 start.to area.old result area.new × (result.to ≤ start.to + 60) }
    {
        let kind = self.kind;
        let a = self.a;
        let b = self.b;
        let c = self.c;
        let mut o = start;
        if on(up, self.fa) {
            o = o.matched(kind, a, 0, true, true, area, cycle);
        }
        if on(up, self.fb) {
            o = o.matched(kind, b, 1, true, true, area, cycle);
        }
        if on(up, self.fc) {
            o = o.matched(kind, c, 2, true, true, area, cycle);
        }
        if bottom {
            o = bottoms(a, b, c, o, area, cycle);
        }
        o
    }
}
