// The shape of what a caller keeps.

ghost use Rattle.std.specs.Prelude.{◌≡◌};
ghost use Rattle.replies.specs.Shapes.{shape};

// The bytes that a value takes, and the multiple of which its address must be.
#[repr(C)]
#[derive(Clone, Copy)]
pub struct Shape {
    pub size: u64,
    pub align: u64,
}

// Yields the shape of `Held`.
pub fn held_shape() -> Shape
    ensures { result ≡ shape }
{
    Shape {
        size: 248,
        align: 8,
    }
}
