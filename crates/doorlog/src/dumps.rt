// The dump of a log for a waveform viewer.

ghost use Rattle.std.specs.Prelude.{◌≡◌};
ghost use Rattle.dump.specs.Answers.{dump_outcome};
ghost use Rattle.doorlog.specs.Dumps.{numbers_of, Dumps};

use dump::{DumpError, dump};

// number is the refusal's, 0 for none; short is whether the area is too short. written counts the area's bytes, none of a refused or a short call.
#[repr(C)]
#[derive(Clone, Copy)]
pub struct Dumped {
    pub number: u8,
    pub short: bool,
    pub written: u64,
}

// Yields an answer in numbers.
impl From<Result<usize, DumpError>> for Dumped {
    ghost from_gives = { λ answer dumped. dumped ≡ numbers_of answer };

    fn from(answer: Result<usize, DumpError>) -> Dumped {
        let none = Dumped {
            number: 0,
            short: false,
            written: 0,
        };
        match answer {
            Ok(written) => Dumped {
                written: written as u64,
                ..none
            },
            Err(DumpError::Refused(fault)) => Dumped {
                number: fault.number(),
                ..none
            },
            Err(DumpError::Short) => Dumped {
                short: true,
                ..none
            },
        }
    }
}

// Puts the dump of a whole log; the area has 6,954 bytes for its header, and 32 for each record and one more.
#[unsafe(no_mangle)]
pub extern "C" fn paddlemauve_dump(log: &[u8], out: &mut [u8]) -> Dumped
    ensures { Dumps (dump_outcome log.now out.old) result out.new }
{
    dump(log, out).into()
}
