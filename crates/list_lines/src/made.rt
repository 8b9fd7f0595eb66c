// The list that lines make up, item by item.

ghost use Rattle.std.specs.Prelude.{ℕ, ◌+◌, ◌*◌, ◌/◌, ◌<◌, ◌≤◌, ◌≡◌, List, [], ◌++◌, length, take, nat_le, IfOk};
ghost use Rattle.list_lines.specs.Items.{item_of, asked_of, added_of, item_line, Adds, IsItem};

use items::Item;
use page::Page;
use std::marker::Model;
use time::units::Cycle;
use words::{Unreadable, decimal, exactly, hexadecimal};

// The most items of the list, and its bytes, ten an item.
pub const MOST: usize = 400;

pub const LIST: usize = 4000;

// The last cycle that an item has room for.
const LAST: u64 = 0x3fff_ffff_ffff_ffff;

// Items as `writes` reads them, ten bytes each. A contract sees those bytes, as a list, and not what stands behind them.
#[derive(Clone, Copy)]
pub struct Items {
    bytes: [u8; LIST],
    items: usize,
}

// Zeros stand behind the items, so that their bytes alone say what a list is, as a copy needs.
impl Model for Items {
    ghost use Rattle.std.specs.Prelude.{ℕ, List};

    ghost Value = { List ℕ };

    ghost use Rattle.list_lines.specs.Kept.{kept, kept_in, Packed};
    ghost use Rattle.std.proofs.Common.{sym};

    ghost view = { kept_in };

    ghost invariant = { Packed };

    ghost inverse = { kept };

    ghost inverse_ok = { λ l h. sym h.whole };
}

impl Items {
    // A list without items.
    pub fn new() -> Items
        ensures { result ≡ [] }
    {
        Items {
            bytes: [0; LIST],
            items: 0,
        }
    }

    // The items' bytes.
    pub fn as_slice(&self) -> &[u8]
        ensures { result.now ≡ self.now }
    {
        &self.bytes[..10 * self.items]
    }

    // Empties the list.
    pub fn clear(&mut self)
        ensures { self.new ≡ [] }
    {
        self.bytes = [0; LIST];
        self.items = 0;
    }

    // How many items the list holds.
    fn len(&self) -> usize
        ensures { result ≡ length self.now / 10 }
    {
        self.as_slice().len() / 10
    }

    // Has the list room for no more.
    fn is_full(&self) -> bool
        ensures { result ≡ nat_le 4000 (length self.now) }
    {
        self.items == MOST
    }

    // Adds an item: address (10 bits), value (8), cycle (62).
    fn push(&mut self, item: Item)
        requires { (length self.old < 4000) × IsItem item }
        ensures { self.new ≡ self.old ++ item_of item.address item.value item.cycle.0 }
    {
        let bits = item.address as u128 * (1 << 70)
            + item.value as u128 * (1 << 62)
            + item.cycle.0 as u128;
        let at = 10 * self.items;
        self.bytes[at..at + 10].copy_from_slice(&bits.to_be_bytes()[6..]);
        self.items += 1;
    }
}

// Reads an item.
#[tactic(auto, unfolding(crate::specs::Items::asked_of, words::specs::Words::and_then))]
fn asked(line: &[u8], at: usize) -> Result<Item, Unreadable>
    ensures { IfOk result IsItem × (result ≡ asked_of line.now at) }
{
    exactly(line, at, 3)?;
    let address = hexadecimal(line, at, 0x3ff)?;
    let value = hexadecimal(line, address.end, 0xff)?;
    let cycle = decimal(line, value.end, LAST)?;
    Ok(Item {
        address: address.value as u16,
        value: value.value as u8,
        cycle: Cycle(cycle.value),
    })
}

// Adds an item that was read to the list; one that finds it full is a word too many.
#[tactic(auto, unfolding(crate::specs::Items::added_of, figures::specs::Figures::codes))]
fn add(items: &mut Items, page: &mut Page, nth: u64, item: Item)
    requires { IsItem item }
    ensures { Adds (added_of nth items.old (item_of item.address item.value item.cycle.0)) page.old page.new items.new }
{
    if items.is_full() {
        page.unreadable(nth, Unreadable::ExtraWord);
        return;
    }
    items.push(item);
    page.number(b"ok items=", items.len() as u64);
}

// Answers an item line from the place after its name.
#[tactic(auto, unfolding(crate::specs::Items::item_read))]
pub fn item_line(items: &mut Items, page: &mut Page, nth: u64, line: &[u8], at: usize)
    ensures { Adds (item_line nth line.now at items.old) page.old page.new items.new }
{
    match asked(line, at) {
        Ok(item) => add(items, page, nth, item),
        Err(why) => page.unreadable(nth, why),
    }
}
