// What is fixed of a timer, and the rules that it keeps.

#![tactic(auto)]

ghost use Rattle.std.specs.Prelude.{◌≡◌, ◌<◌, ◌≤◌};
ghost use Rattle.few.specs.Few.{held};
ghost use Rattle.config.specs.Config.{split, bare, one_bit, flagged, controls, owned, flags_of, pins_of, choice_rule, width_rule, layout_rule, compare_rule, address_rule, flag_rule, pin_rule, accepted, least, pair_at, control_at, place_of};

use few::Few;

// Where the control bits stand: TCCRnA and TCCRnB, one TCCRn, or one TCCRn without WGM.
pub const SPLIT: u8 = 0;

pub const SINGLE: u8 = 1;

pub const BARE: u8 = 2;

// The two clock select tables.
pub const SYNC: u8 = 0;

pub const TIMER2: u8 = 1;

// A pin, where there is one.
#[repr(C)]
#[derive(Clone, Copy)]
pub struct Wire {
    pub present: bool,
    pub pin: u8,
}

// A compare unit: OCRnx, OCFnx, FOCnx and OCnx.
#[repr(C)]
#[derive(Clone, Copy)]
pub struct Compare {
    pub present: bool,
    pub address: u16,
    pub flag: u8,
    pub force: u8,
    pub wire: Wire,
}

// The capture unit: ICRn, ICFn and ICPn.
#[repr(C)]
#[derive(Clone, Copy)]
pub struct Capture {
    pub present: bool,
    pub address: u16,
    pub flag: u8,
    pub wire: Wire,
}

// foc is where the force bits stand, prr the timer's bit of the power reduction register, sleeprun the sleep modes that
// it counts in. Layout and clock table are numbers, so that a program in Rust or C can hold a configuration.
#[repr(C)]
#[derive(Clone, Copy)]
pub struct Config {
    pub id: u8,
    pub wide: bool,
    pub layout: u8,
    pub tccra: u16,
    pub tccrb: u16,
    pub foc: u16,
    pub tcnt: u16,
    pub a: Compare,
    pub b: Compare,
    pub c: Compare,
    pub icr: Capture,
    pub tov: u8,
    pub t: Wire,
    pub clocks: u8,
    pub group: u8,
    pub prr: u16,
    pub sleeprun: u8,
}

// Is a mask a single bit.
pub fn is_one_bit(mask: u8) -> bool
    ensures { result ≡ one_bit mask }
{
    (mask == 1)
        | (mask == 2)
        | (mask == 4)
        | (mask == 8)
        | (mask == 16)
        | (mask == 32)
        | (mask == 64)
        | (mask == 128)
}

// Has a flag one bit exactly with its unit.
pub fn is_flagged(present: bool, flag: u8) -> bool
    ensures { result ≡ flagged present flag }
{
    if present { is_one_bit(flag) } else { flag == 0 }
}

impl Config {
    // The least that is accepted: one control address, TCNT and TOV.
    pub fn least() -> Config
        ensures { result ≡ least }
    {
        let wire = Wire {
            present: false,
            pin: 0,
        };
        let compare = Compare {
            present: false,
            address: 0,
            flag: 0,
            force: 0,
            wire,
        };
        let capture = Capture {
            present: false,
            address: 0,
            flag: 0,
            wire,
        };
        Config {
            id: 0,
            wide: false,
            layout: BARE,
            tccra: 0,
            tccrb: 0,
            foc: 0,
            tcnt: 1,
            a: compare,
            b: compare,
            c: compare,
            icr: capture,
            tov: 1,
            t: wire,
            clocks: SYNC,
            group: 0,
            prr: 0,
            sleeprun: 0,
        }
    }

    // Are there two control addresses.
    pub fn is_split(self) -> bool
        ensures { result ≡ split self.layout }
    {
        self.layout == SPLIT
    }

    // Is there no WGM.
    pub fn is_bare(self) -> bool
        ensures { result ≡ bare self.layout }
    {
        self.layout == BARE
    }

    // There are three layouts and two clock tables.
    pub fn keeps_choices(self) -> bool
        ensures { result ≡ choice_rule self }
    {
        (self.layout <= BARE) & (self.clocks <= TIMER2)
    }

    // ICR and channel C only when wide.
    pub fn keeps_width(self) -> bool
        ensures { result ≡ width_rule self }
    {
        let c = self.c;
        let icr = self.icr;
        self.wide | (!c.present & !icr.present)
    }

    // Split has two control addresses; a single layout is narrow, with one control and force address.
    pub fn keeps_layout(self) -> bool
        ensures { result ≡ layout_rule self }
    {
        if self.is_split() {
            self.tccra != self.tccrb
        } else {
            !self.wide & (self.tccra == self.tccrb) & (self.tccra == self.foc)
        }
    }

    // OCRA is present, except that a single layout without WGM has no compare.
    pub fn keeps_compares(self) -> bool
        ensures { result ≡ compare_rule self }
    {
        let a = self.a;
        let b = self.b;
        let c = self.c;
        if self.is_bare() {
            !a.present & !b.present & !c.present
        } else {
            a.present
        }
    }

    // The control addresses, and a force address of its own.
    pub fn controls(self) -> Few
        ensures { (held result ≡ controls self) × (result.len ≤ 3) }
    {
        let two = Few::new()
            .also(true, self.tccra as u32)
            .also(self.is_split(), self.tccrb as u32);
        two.also(
            (self.foc != self.tccra) & (self.foc != self.tccrb),
            self.foc as u32,
        )
    }

    // The addresses that the timer owns.
    pub fn owned(self) -> Few
        ensures { (held result ≡ owned self) × (result.len ≤ 13) }
    {
        let wide = self.wide;
        let a = self.a;
        let b = self.b;
        let c = self.c;
        let icr = self.icr;
        let count = self.controls().register(true, wide, self.tcnt);
        let first = count.register(a.present, wide, a.address);
        let second = first.register(b.present, wide, b.address);
        let third = second.register(c.present, wide, c.address);
        third.register(icr.present, wide, icr.address)
    }

    // The flag bits of the units it has.
    pub fn flags(self) -> Few
        ensures { (held result ≡ flags_of self) × (result.len ≤ 13) }
    {
        let a = self.a;
        let b = self.b;
        let c = self.c;
        let icr = self.icr;
        Few::five(
            [true, a.present, b.present, c.present, icr.present],
            [self.tov, a.flag, b.flag, c.flag, icr.flag],
        )
    }

    // The pins it has.
    pub fn pins(self) -> Few
        ensures { (held result ≡ pins_of self) × (result.len ≤ 13) }
    {
        let a = self.a;
        let b = self.b;
        let c = self.c;
        let icr = self.icr;
        let wa = a.wire;
        let wb = b.wire;
        let wc = c.wire;
        let wi = icr.wire;
        let wt = self.t;
        Few::five(
            [wa.present, wb.present, wc.present, wi.present, wt.present],
            [wa.pin, wb.pin, wc.pin, wi.pin, wt.pin],
        )
    }

    // Owned addresses are distinct and at most 511.
    pub fn keeps_addresses(self) -> bool
        ensures { result ≡ address_rule self }
    {
        let owned = self.owned();
        owned.distinct() & owned.within(511)
    }

    // TOV is one bit, the other flags one bit exactly with their unit, all distinct.
    pub fn keeps_flags(self) -> bool
        ensures { result ≡ flag_rule self }
    {
        let a = self.a;
        let b = self.b;
        let c = self.c;
        let icr = self.icr;
        is_one_bit(self.tov)
            & is_flagged(a.present, a.flag)
            & is_flagged(b.present, b.flag)
            & is_flagged(c.present, c.flag)
            & is_flagged(icr.present, icr.flag)
            & self.flags().distinct()
    }

    // Pins are at most 247 and distinct, a compare's or the capture's only with its unit.
    pub fn keeps_pins(self) -> bool
        ensures { result ≡ pin_rule self }
    {
        let a = self.a;
        let b = self.b;
        let c = self.c;
        let icr = self.icr;
        let wa = a.wire;
        let wb = b.wire;
        let wc = c.wire;
        let wi = icr.wire;
        let pins = self.pins();
        (a.present | !wa.present)
            & (b.present | !wb.present)
            & (c.present | !wc.present)
            & (icr.present | !wi.present)
            & pins.distinct()
            & pins.within(247)
    }

    // Does the configuration keep every rule.
    pub fn is_accepted(self) -> bool
        ensures { result ≡ accepted self }
    {
        self.keeps_choices()
            & self.keeps_width()
            & self.keeps_layout()
            & self.keeps_compares()
            & self.keeps_addresses()
            & self.keeps_flags()
            & self.keeps_pins()
    }
}

impl Config {
    // The place of a register of two bytes, low or high, if the address is one of them, else another place.
    fn pair(self, present: bool, low: u16, address: u16, place: u8, other: u8) -> u8
        requires { place < 255 }
        ensures { result ≡ pair_at self present low address place other }
    {
        let at = address as u32;
        let first = low as u32;
        if present & (at == first) {
            place
        } else if present & self.wide & (at == first + 1) {
            place + 1
        } else {
            other
        }
    }

    // The place of a control or force register, 13 where there is none.
    fn control(self, address: u16) -> u8
        ensures { result ≡ control_at self address }
    {
        if address == self.tccra {
            10
        } else if address == self.tccrb {
            11
        } else if address == self.foc {
            12
        } else {
            13
        }
    }

    // The register at an address: TCNTn 0 and 1 (low and high byte), OCRnA 2 and 3, OCRnB 4 and 5, OCRnC 6 and 7, ICRn 8 and 9,
    // TCCRnA or TCCRn 10, TCCRnB 11, a force register of its own 12; 13 where there is none.
    pub fn place(self, address: u16) -> u8
        ensures { result ≡ place_of self address }
    {
        let a = self.a;
        let b = self.b;
        let c = self.c;
        let icr = self.icr;
        let count = self.pair(true, self.tcnt, address, 0, 13);
        if count != 13 {
            return count;
        }
        let first = self.pair(a.present, a.address, address, 2, 13);
        if first != 13 {
            return first;
        }
        let second = self.pair(b.present, b.address, address, 4, 13);
        if second != 13 {
            return second;
        }
        let third = self.pair(c.present, c.address, address, 6, 13);
        if third != 13 {
            return third;
        }
        self.pair(icr.present, icr.address, address, 8, self.control(address))
    }
}
