// The board for Rust and C: any order, on a lent board.

ghost use Rattle.std.specs.Prelude.{◌≡◌};
ghost use Rattle.board.specs.State.{fresh_board, Valid};
ghost use Rattle.board.specs.Calls.{areas_of};
ghost use Rattle.orders.specs.Orders.{order_of, told_to, Obeys};
ghost use Rattle.shell.specs.Numbers.{board_shape};

use board::state::Board;
use orders::{Ordered, Replied, step};
use replies::shapes::Shape;

// Yields the shape of `Board`, so that a caller can compare its own.
#[unsafe(no_mangle)]
pub extern "C" fn paddlemauve_board_shape() -> Shape
    ensures { result ≡ board_shape }
{
    Shape {
        size: 1600,
        align: 8,
    }
}

// Yields a fresh board.
#[unsafe(no_mangle)]
pub extern "C" fn paddlemauve_board() -> Board
    ensures { (result ≡ fresh_board) × Valid result }
{
    Board::new()
}

// Any order to a lent board, with an area for each timer.
#[unsafe(no_mangle)]
pub extern "C" fn paddlemauve_board_call(
    b: &mut Board,
    asked: Ordered,
    zero: &mut [u8],
    one: &mut [u8],
    two: &mut [u8],
) -> Replied
    requires { Valid b.old }
    ensures { Obeys (told_to b.old (order_of asked) asked.cycle (areas_of zero.old one.old two.old)) b.new result zero.new one.new two.new }
{
    let s = step(*b, asked, zero, one, two);
    *b = s.board;
    s.reply
}
