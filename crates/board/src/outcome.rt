// What an order to the board answers.

ghost use Rattle.std.specs.Prelude.{◌≡◌};
ghost use Rattle.board.specs.Calls.{written_of, nothing};

use crate::state::Board;
use answers::Answer;
use m328p::Id;

// The bytes written from the start of each timer's area.
#[derive(Clone, Copy)]
pub struct Written {
    pub zero: usize,
    pub one: usize,
    pub two: usize,
}

// The answer, the board after the order, and the bytes written.
#[derive(Clone, Copy)]
pub struct Outcome {
    pub answer: Answer,
    pub board: Board,
    pub written: Written,
}

impl Written {
    // No byte.
    pub fn nothing() -> Written
        ensures { result ≡ nothing }
    {
        Written {
            zero: 0,
            one: 0,
            two: 0,
        }
    }

    // So many bytes in one timer's area.
    pub fn of(id: Id, n: usize) -> Written
        ensures { result ≡ written_of id n }
    {
        match id {
            Id::Zero => Written {
                zero: n,
                one: 0,
                two: 0,
            },
            Id::One => Written {
                zero: 0,
                one: n,
                two: 0,
            },
            Id::Two => Written {
                zero: 0,
                one: 0,
                two: n,
            },
        }
    }
}
