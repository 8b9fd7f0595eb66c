// Pages as they are written out.

ghost use Rattle.std.specs.Prelude.{true, ◌≡◌};
ghost use Rattle.session.specs.Runs.{roomy_of};

use page::Page;
use session::runs::roomy;
use std::io::Write;

// Writes out the page; a write that fails is passed over.
pub fn flush<W: Write>(output: &mut W, page: &Page) {
    let _ = output.write_all(page.written());
}

// Makes room for the next answer: the page is written out where it has none for the longest.
pub fn turned<W: Write>(output: &mut W, page: &mut Page)
    ensures { roomy_of page.new ≡ true }
{
    if !roomy(page) {
        flush(output, page);
        page.truncate(0);
    }
}
