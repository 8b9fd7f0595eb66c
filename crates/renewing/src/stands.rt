// What is kept of a timer whose scene stands: TOP, and the way of the count.

ghost use Rattle.std.specs.Prelude.{◌≡◌};
ghost use Rattle.renewing.specs.Stands.{top_in, down_in};

use wave::count::Counter;
use wave::kinds::dual_slope;

// TOP: OCRnA where it follows that, else as it was.
pub fn top_in(follows: bool, top: u32, ocr: [u32; 3]) -> u32
    ensures { result ≡ top_in follows top ocr }
{
    if follows { ocr[0] } else { top }
}

// Does the count fall.
pub fn down_in(kind: u8, counter: Counter) -> bool
    ensures { result ≡ down_in kind counter }
{
    dual_slope(kind) & (counter.direction < 0)
}
