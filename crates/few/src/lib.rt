// A few numbers: the addresses, flag bits or pins of a configuration.

#![tactic(auto)]

ghost use Rattle.std.specs.Prelude.{◌≡◌, [], ◌+◌, ◌<◌, ◌≤◌, drop};
ghost use Rattle.few.specs.Few.{held, also, five, register, has, distinct, within};

// A byte as a wider number.
fn wide(x: u8) -> u32
    ensures { result ≡ x }
{
    x as u32
}

#[derive(Clone, Copy)]
pub struct Few {
    items: [u32; 13],
    len: usize,
}

impl Few {
    // None yet.
    pub fn new() -> Few
        ensures { (held result ≡ []) × (result.len ≡ 0) }
    {
        Few {
            items: [0u32; 13],
            len: 0,
        }
    }

    // One more, where it is wanted.
    pub fn also(self, wanted: bool, item: u32) -> Few
        requires { self.len < 13 }
        ensures { (held result ≡ also wanted item (held self)) × (result.len ≤ self.len + 1) }
    {
        let mut f = self;
        let at = self.len;
        if wanted {
            f.items[at] = item;
            f.len = at + 1;
            f
        } else {
            f
        }
    }

    // Those of five that are wanted.
    pub fn five(wanted: [bool; 5], items: [u8; 5]) -> Few
        ensures { (held result ≡ five wanted items) × (result.len ≤ 5) }
    {
        let two = Few::new()
            .also(wanted[0], wide(items[0]))
            .also(wanted[1], wide(items[1]));
        let four = two
            .also(wanted[2], wide(items[2]))
            .also(wanted[3], wide(items[3]));
        four.also(wanted[4], wide(items[4]))
    }

    // A register's address, and that of its high byte in a wide timer.
    pub fn register(self, present: bool, wide: bool, address: u16) -> Few
        requires { self.len ≤ 11 }
        ensures { (held result ≡ register present wide address (held self)) × (result.len ≤ self.len + 2) }
    {
        let low = address as u32;
        let first = self.also(present, low);
        first.also(present & wide, low + 1)
    }

    // Is a number among those from a place on.
    fn has(self, from: usize, item: u32) -> bool
        requires { (self.len ≤ 13) × (from ≤ self.len) }
        ensures { result ≡ has item (drop from (held self)) }
    {
        let items = self.items;
        let len = self.len;
        let mut i = from;
        while i < len {
            if items[i] == item {
                return true;
            }
            i += 1;
        }
        false
    }

    // Are no two the same.
    pub fn distinct(self) -> bool
        requires { self.len ≤ 13 }
        ensures { result ≡ distinct (held self) }
    {
        let items = self.items;
        let len = self.len;
        let mut i = 0;
        while i < len {
            if self.has(i + 1, items[i]) {
                return false;
            }
            i += 1;
        }
        true
    }

    // Are all at most a bound.
    pub fn within(self, bound: u32) -> bool
        requires { self.len ≤ 13 }
        ensures { result ≡ within bound (held self) }
    {
        let items = self.items;
        let len = self.len;
        let mut i = 0;
        while i < len {
            if bound < items[i] {
                return false;
            }
            i += 1;
        }
        true
    }
}
