// One GPIO pin: what the MCU drives, what the outside drives, and the level and the volts that come of it.
// A pin goes in by value and comes back.

#![tactic(auto)]

ghost use Rattle.std.specs.Prelude.{◌≡◌, IsTrue};
ghost use Rattle.pins.specs.Pins.{supplied, usable, rail, clamped, analog_level};
ghost use Rattle.pins.specs.Pins.{overridden, driven_bit, direction, output, bits, at, at_rail, pulled, input, settled, opposed};
ghost use Rattle.pins.specs.Pins.{number_of, answer, driven, effective_dir, contention, resolved};

// What the outside world connects to a pin.
#[derive(Clone, Copy)]
pub enum Drive {
    // Nothing (high impedance).
    Float,
    Low,
    High,
    // A voltage.
    Analog(f64),
}

#[derive(Clone, Copy)]
pub struct Pin {
    // 1 = output.
    pub dir: u8,
    // Output latch.
    pub out: u8,
    pub pullup: u8,
    pub pulldown: u8,
    // A peripheral overrides the output value.
    pub ovenable: u8,
    pub ovvalue: u8,
    // An alternate function disables the driver.
    pub reserved: bool,
    // A peripheral overrides the direction.
    pub ddoe: u8,
    pub ddov: u8,
    // As last resolved.
    pub level: u8,
    pub volts: f64,
}

// Why a call is refused.
#[derive(Clone, Copy, PartialEq, Eq)]
pub enum Refusal {
    // A voltage that is of no use.
    Volts,
    // A byte of the pin that is no bit.
    Bits,
}

impl Refusal {
    pub fn number(self) -> u8
        ensures { result ≡ number_of self }
    {
        match self {
            Refusal::Volts => 9,
            Refusal::Bits => 10,
        }
    }
}

// A pin at its level, and whether the level changed.
#[derive(Clone, Copy)]
pub struct Resolved {
    pub pin: Pin,
    pub changed: bool,
}

fn is_supplied(vcc: f64) -> bool
    ensures { result ≡ supplied vcc }
{
    vcc.is_finite() & (vcc > 0.0)
}

impl Drive {
    fn is_usable(self) -> bool
        ensures { result ≡ usable self }
    {
        match self {
            Drive::Float | Drive::Low | Drive::High => true,
            Drive::Analog(volts) => volts.is_finite(),
        }
    }
}

fn rail_of(level: u8, vcc: f64) -> f64
    ensures { result ≡ rail level vcc }
{
    if level != 0 { vcc } else { 0.0 }
}

fn analog_level(v: f64, vcc: f64, held: u8) -> u8
    ensures { result ≡ analog_level v vcc held }
{
    if v >= 0.6 * vcc {
        1
    } else if v <= 0.3 * vcc {
        0
    } else {
        held
    }
}

fn override_by(enable: u8, value: u8, own: u8) -> u8
    ensures { result ≡ overridden enable value own }
{
    if enable != 0 { value } else { own }
}

impl Pin {
    fn driven_bit(self) -> u8
        ensures { result ≡ driven_bit self }
    {
        override_by(self.ovenable, self.ovvalue, self.out)
    }

    fn direction_bit(self) -> u8
        ensures { result ≡ direction self }
    {
        override_by(self.ddoe, self.ddov, self.dir)
    }

    fn is_output(self) -> bool
        ensures { result ≡ output self }
    {
        (self.direction_bit() != 0) & !self.reserved
    }

    fn has_bits(self) -> bool
        ensures { result ≡ bits self }
    {
        (self.dir <= 1)
            & (self.out <= 1)
            & (self.pullup <= 1)
            & (self.pulldown <= 1)
            & (self.ovenable <= 1)
            & (self.ovvalue <= 1)
            & (self.ddoe <= 1)
            & (self.ddov <= 1)
            & (self.level <= 1)
    }

    // Refuses a call on this pin; `volts` says that every voltage given is of use.
    fn check(self, volts: bool) -> Result<(), Refusal>
        ensures { result ≡ answer volts self tt }
    {
        if !volts {
            return Err(Refusal::Volts);
        }
        if !self.has_bits() {
            return Err(Refusal::Bits);
        }
        Ok(())
    }

    fn put_at(self, level: u8, volts: f64) -> Pin
        ensures { result ≡ at self level volts }
    {
        Pin {
            level,
            volts,
            ..self
        }
    }

    fn put_at_rail(self, level: u8, vcc: f64) -> Pin
        ensures { result ≡ at_rail self level vcc }
    {
        self.put_at(level, rail_of(level, vcc))
    }

    fn pulled_level(self) -> u8
        ensures { result ≡ pulled self }
    {
        if self.pullup != 0 {
            1
        } else if self.pulldown != 0 {
            0
        } else {
            self.level
        }
    }

    fn take_input(self, drive: Drive, vcc: f64) -> Pin
        requires { IsTrue (supplied vcc) }
        ensures { result ≡ input self drive vcc }
    {
        match drive {
            Drive::Float => self.put_at_rail(self.pulled_level(), vcc),
            Drive::Low => self.put_at_rail(0, vcc),
            Drive::High => self.put_at_rail(1, vcc),
            Drive::Analog(x) => {
                let v = x.clamp(0.0, vcc);
                self.put_at(analog_level(v, vcc, self.level), v)
            }
        }
    }

    fn settle(self, drive: Drive, vcc: f64) -> Pin
        requires { IsTrue (supplied vcc) }
        ensures { result ≡ settled self drive vcc }
    {
        if self.is_output() {
            self.put_at_rail(self.driven_bit(), vcc)
        } else {
            self.take_input(drive, vcc)
        }
    }

    fn is_opposed(self, drive: Drive) -> bool
        ensures { result ≡ opposed self drive }
    {
        let drives = self.is_output();
        let v = self.driven_bit();
        match drive {
            Drive::Float => false,
            Drive::Low => drives & (v == 1),
            Drive::High => drives & (v == 0),
            Drive::Analog(_) => false,
        }
    }

    // Value driven by the MCU when the pin is an output.
    pub fn driven(self) -> Result<u8, Refusal>
        ensures { result ≡ driven self }
    {
        self.check(true)?;
        Ok(self.driven_bit())
    }

    // Direction after peripheral overrides (1 = output).
    pub fn effective_dir(self) -> Result<u8, Refusal>
        ensures { result ≡ effective_dir self }
    {
        self.check(true)?;
        Ok(self.direction_bit())
    }

    // Resolves logic level and voltage, and says whether the level changed.
    pub fn resolve(self, drive: Drive, vcc: f64) -> Result<Resolved, Refusal>
        ensures { result ≡ resolved self drive vcc }
    {
        self.check(is_supplied(vcc) & drive.is_usable())?;
        let pin = self.settle(drive, vcc);
        Ok(Resolved {
            pin,
            changed: pin.level != self.level,
        })
    }

    // The MCU drives the pin while something external drives the opposite level.
    pub fn contention(self, drive: Drive) -> Result<bool, Refusal>
        ensures { result ≡ contention self drive }
    {
        self.check(drive.is_usable())?;
        Ok(self.is_opposed(drive))
    }
}
