// Lines that resolve a pin.

#![tactic(auto)]

ghost use Rattle.std.specs.Prelude.{◌≡◌, ◌<◌};
ghost use Rattle.page.specs.Page.{Puts};
ghost use Rattle.pin_lines.specs.PinLines.{no_keys, pin_keys, connection_of, bit_of, drive_of, pin_of, vcc_of, outcome_of, resolved_line, answer_line, pin_line};

use page::Page;
use pairs::{Keyed, gathered};
use pins::{Drive, Pin, Refusal, Resolved};
use words::volts::{pattern, volts_of};
use words::{Unreadable, numeral_in};

// What the outside connects to the pin.
#[derive(Clone, Copy)]
enum Connection {
    Float,
    Low,
    High,
    Analog,
}

// The keys' values, none where a key was not given; of the ten bits in the order of their list.
#[derive(Clone, Copy)]
struct Keys {
    vcc: Option<f64>,
    connection: Option<Connection>,
    volts: Option<f64>,
    bits: [Option<u8>; 10],
}

// A connection by its name.
#[tactic(auto, unfolding(crate::specs::PinLines::connection_of, figures::specs::Figures::codes))]
fn connected(word: &[u8]) -> Result<Connection, Unreadable>
    ensures { result ≡ connection_of word.now }
{
    match word {
        b"float" => Ok(Connection::Float),
        b"low" => Ok(Connection::Low),
        b"high" => Ok(Connection::High),
        b"analog" => Ok(Connection::Analog),
        _ => Err(Unreadable::UnknownName),
    }
}

impl Keyed for Keys {
    ghost kept = { pin_keys };

    #[tactic(auto, unfolding(figures::specs::Figures::codes))]
    fn names() -> &'static [u8] {
        b"vcc ext volts dir out pullup pulldown ove ovv reserved ddoe ddov level"
    }

    #[tactic(auto, using(crate::proofs::Names::keys_many), unfolding(crate::specs::PinLines::given_of))]
    fn given(&self, key: usize) -> bool {
        match key {
            0 => self.vcc.is_some(),
            1 => self.connection.is_some(),
            2 => self.volts.is_some(),
            _ => self.bits[key - 3].is_some(),
        }
    }

    #[tactic(auto, using(crate::proofs::Names::keys_many), unfolding(crate::specs::PinLines::taken_of, words::specs::Words::and_then))]
    fn take(&mut self, key: usize, word: &[u8]) -> Result<(), Unreadable> {
        match key {
            0 => self.vcc = Some(volts_of(word)?),
            1 => self.connection = Some(connected(word)?),
            2 => self.volts = Some(volts_of(word)?),
            _ => self.bits[key - 3] = Some(numeral_in(word, 10, 0xff)? as u8),
        }
        Ok(())
    }
}

impl Keys {
    // Before any key.
    fn new() -> Keys
        ensures { result ≡ no_keys }
    {
        Keys {
            vcc: None,
            connection: None,
            volts: None,
            bits: [None; 10],
        }
    }

    // A bit by its place among the ten, 0 where it was not given.
    fn bit(&self, place: usize) -> u8
        requires { place < 10 }
        ensures { result ≡ bit_of self.now place }
    {
        self.bits[place].unwrap_or(0)
    }

    // The pin. A reserved that is no bit goes in as the level, to be refused as any other.
    #[tactic(auto, unfolding(crate::specs::PinLines::pin_of))]
    fn pin(&self) -> Pin
        ensures { result ≡ pin_of self.now }
    {
        let reserved = self.bit(6);
        Pin {
            dir: self.bit(0),
            out: self.bit(1),
            pullup: self.bit(2),
            pulldown: self.bit(3),
            ovenable: self.bit(4),
            ovvalue: self.bit(5),
            reserved: reserved == 1,
            ddoe: self.bit(7),
            ddov: self.bit(8),
            level: if reserved <= 1 { self.bit(9) } else { reserved },
            volts: 0.0,
        }
    }

    // What the outside drives.
    #[tactic(auto, unfolding(crate::specs::PinLines::driven_by))]
    fn drive(&self) -> Drive
        ensures { result ≡ drive_of self.now }
    {
        match self.connection {
            None | Some(Connection::Float) => Drive::Float,
            Some(Connection::Low) => Drive::Low,
            Some(Connection::High) => Drive::High,
            Some(Connection::Analog) => Drive::Analog(self.volts.unwrap_or(0.0)),
        }
    }

    // The supply's volts.
    fn supply(&self) -> f64
        ensures { result ≡ vcc_of self.now }
    {
        self.vcc.unwrap_or(5.0)
    }

    // The pin at its level, and whether it is opposed.
    #[tactic(auto, unfolding(crate::specs::PinLines::outcome_of, words::specs::Words::and_then))]
    fn outcome(&self) -> Result<(Resolved, bool), Refusal>
        ensures { result ≡ outcome_of self.now }
    {
        let pin = self.pin();
        let drive = self.drive();
        let to = pin.resolve(drive, self.supply())?;
        Ok((to, pin.contention(drive)?))
    }
}

// Puts a resolved pin.
fn resolved(page: &mut Page, to: Resolved, contention: bool)
    ensures { Puts page.old page.new (resolved_line to contention) }
{
    page.number(b"ok level=", to.pin.level as u64);
    page.sixteen(b" volts=", pattern(to.pin.volts));
    page.bit(b" changed=", to.changed);
    page.bit(b" contention=", contention);
}

// Puts what a pin resolves to, or why it is refused.
#[tactic(auto, unfolding(crate::specs::PinLines::answer_line, figures::specs::Figures::codes))]
fn answer(page: &mut Page, outcome: Result<(Resolved, bool), Refusal>)
    ensures { Puts page.old page.new (answer_line outcome) }
{
    match outcome {
        Ok((to, contention)) => resolved(page, to, contention),
        Err(why) => page.number(b"refused ", why.number() as u64),
    }
}

// Answers a pin line, the nth of the script, from the place after its name.
#[tactic(auto, unfolding(crate::specs::PinLines::pin_of_line))]
pub fn pin_line(page: &mut Page, nth: u64, line: &[u8], at: usize)
    ensures { Puts page.old page.new (pin_line nth line.now at) }
{
    match gathered(Keys::new(), line, at) {
        Ok(keys) => answer(page, keys.outcome()),
        Err(why) => page.unreadable(nth, why),
    }
}
