// The area that a line's call has, and whether the call kept to it.

#![tactic(auto)]

ghost use Rattle.std.specs.Prelude.{◌≡◌, length};
ghost use Rattle.room.specs.Room.{filled, changed_at};

use words::seek;

// What stands in every byte of an area before a call.
pub const FILL: u8 = 0xa5;

// The bytes of the largest area.
pub const ROOM: usize = 4096;

pub type Room = [u8; ROOM];

// Fills an area.
#[tactic(auto, unfolding(crate::specs::Room::filled))]
pub fn fill(area: &mut [u8])
    ensures { area.new ≡ filled (length area.old) }
{
    area.fill(FILL);
}

// The first place behind what was written that a call changed, else the area's end.
pub fn changed(area: &[u8], written: usize) -> usize
    ensures { result ≡ changed_at area.now written }
{
    seek(area, written, FILL, true)
}
