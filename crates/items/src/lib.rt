// An item of the list: ten bytes, most significant first.

#![tactic(auto)]

ghost use Rattle.std.specs.Prelude.{◌≡◌, ◌+◌, ◌≤◌, length, take, drop};
ghost use Rattle.items.specs.Items.{item_in};

use records::numbers::{eight, two};
use time::units::Cycle;

// A register's address, the byte to write there, and the cycle.
#[derive(Clone, Copy)]
pub struct Item {
    pub address: u16,
    pub value: u8,
    pub cycle: Cycle,
}

impl Item {
    // Yields the item in the ten bytes from a place of the list on: address (10 bits), value (8), cycle (62).
    pub fn at(list: &[u8], from: usize) -> Item
        requires { from + 10 ≤ length list.now }
        ensures { result ≡ item_in (take 10 (drop from list.now)) }
    {
        let head = two(list, from);
        let rest = eight(list, from + 2);
        Item {
            address: (head / 64) as u16,
            value: (head % 64 * 4 + rest / 0x4000_0000_0000_0000) as u8,
            cycle: Cycle(rest % 0x4000_0000_0000_0000),
        }
    }
}
