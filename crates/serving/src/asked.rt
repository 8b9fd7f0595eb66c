// A call in numbers.

ghost use Rattle.std.specs.Prelude.{◌≡◌};
ghost use Rattle.serving.specs.Asked.{call_of};

use timer::calls::Call;

// kind is the call's place in `timer::calls::Call`, from 0 on; of the arguments it takes those that it has.
#[repr(C)]
#[derive(Clone, Copy)]
pub struct Asked {
    pub kind: u8,
    pub pin: u8,
    pub value: u8,
    pub address: u16,
    pub cycle: u64,
}

// The call that a number names, if it names one.
#[derive(Clone, Copy)]
pub enum Wanted {
    Known(Call),
    Unknown,
}

impl Asked {
    // Yields the call.
    pub fn call(self) -> Wanted
        ensures { result ≡ call_of self }
    {
        let kind = self.kind;
        match kind {
            0 => Wanted::Known(Call::Advance),
            1 => Wanted::Known(Call::Next),
            2 => Wanted::Known(Call::Read(self.address)),
            3 => Wanted::Known(Call::Peek(self.address)),
            4 => Wanted::Known(Call::Write(self.address, self.value)),
            5 => Wanted::Known(Call::Tifr),
            6 => Wanted::Known(Call::Timsk),
            7 => Wanted::Known(Call::WriteTifr(self.value)),
            8 => Wanted::Known(Call::WriteTimsk(self.value)),
            9 => Wanted::Known(Call::Edge(self.pin, self.value)),
            10 => Wanted::Known(Call::Output(self.value)),
            11 => Wanted::Known(Call::Route(self.value)),
            12 => Wanted::Known(Call::Sleep(self.value)),
            13 => Wanted::Known(Call::Wake),
            14 => Wanted::Known(Call::Reduce(self.address)),
            15 => Wanted::Known(Call::Tsm(self.value)),
            16 => Wanted::Known(Call::Prescale(self.value)),
            17 => Wanted::Known(Call::Reset),
            18..=255 => Wanted::Unknown,
        }
    }
}
