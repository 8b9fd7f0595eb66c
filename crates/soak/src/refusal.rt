// Why a file is not dumped.

ghost use Rattle.std.specs.Prelude.{◌≡◌};
ghost use Rattle.soak.specs.Refusal.{number_of};

use verdict::judge::Fault;

#[derive(Clone, Copy, PartialEq, Eq)]
pub enum Refusal {
    // Its log is refused.
    Log(Fault),
    // It cannot be opened, or read to its end.
    Unreadable,
}

impl Refusal {
    // The refusal's number.
    pub fn number(self) -> u8
        ensures { result ≡ number_of self }
    {
        match self {
            Refusal::Log(fault) => fault.number(),
            Refusal::Unreadable => 23,
        }
    }
}
