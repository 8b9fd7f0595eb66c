// A call's answer in numbers.

ghost use Rattle.std.specs.Prelude.{◌≡◌};
ghost use Rattle.answers.specs.Answers.{number_of, values_of};
ghost use Rattle.held.specs.Reply.{replied, beside, what_of, value_of};

use answers::{Answer, Outcome};
use counter::next::Next;

// number is the refusal's, 0 for none. what is 0 for no value, 1 for a byte, 2 for the next event's cycle, 3 for none to
// come, 4 for the sync cycle of an advance that stopped, 5 for a refusal, 6 for an advance that came to its cycle; value has
// it. written counts the area's bytes. flags and next are the next event's of the timer as an accepted call leaves it, 0 beside a refusal.
#[repr(C)]
#[derive(Clone, Copy)]
pub struct Reply {
    pub number: u8,
    pub what: u8,
    pub flags: u8,
    pub value: u64,
    pub written: u64,
    pub next: u64,
}

impl Reply {
    // Yields a reply from its numbers.
    pub fn new(number: u8, what: u8, value: u64, written: usize, next: u64, flags: u8) -> Reply
        ensures { result ≡ replied number what value written next flags }
    {
        Reply {
            number,
            what,
            flags,
            value,
            written: written as u64,
            next,
        }
    }

    // Yields the reply of a call that is refused.
    pub fn turned(number: u8) -> Reply
        ensures { result ≡ replied number 5 0 0 0 0 }
    {
        Reply::new(number, 5, 0, 0, 0, 0)
    }

    // Yields the reply of a call that yields a byte and writes no record.
    pub fn byte(value: u8, next: u64, flags: u8) -> Reply
        ensures { result ≡ replied 0 1 value 0 next flags }
    {
        Reply::new(0, 1, value as u64, 0, next, flags)
    }

    // Yields an outcome's answer in numbers, of an accepted call with the next event.
    pub fn of(o: Outcome, next: u64, flags: u8) -> Reply
        ensures { result ≡ replied (number_of o.answer) (what_of (values_of o.answer)) (value_of (values_of o.answer)) o.written (beside (values_of o.answer) next) (beside (values_of o.answer) flags) }
    {
        let answer = o.answer;
        let written = o.written;
        match answer {
            Answer::Refused(n) => Reply::new(n, 5, 0, written, 0, 0),
            Answer::Done => Reply::new(0, 0, 0, written, next, flags),
            Answer::Value(v) => Reply::new(0, 1, v as u64, written, next, flags),
            Answer::Next(n) => match n {
                Next::At(c, f) => Reply::new(0, 2, c.0, written, next, flags),
                Next::Never => Reply::new(0, 3, 0, written, next, flags),
            },
            Answer::Reached(f) => Reply::new(0, 6, 0, written, next, flags),
            Answer::Paused(c, f) => Reply::new(0, 4, c.0, written, next, flags),
        }
    }
}
