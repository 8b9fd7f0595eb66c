// What a line leaves once the file has answered.

ghost use Rattle.std.specs.Prelude.{ℕ, true, List, [], ◌∷◌, ◌++◌, ◌≡◌, length, Err};
ghost use Rattle.page.specs.Page.{Puts, unreadable_of};
ghost use Rattle.bench_lines.specs.Desk.{Sound, Stable};
ghost use Rattle.bench_lines.specs.Named.{Lent};
ghost use Rattle.bench_lines.specs.Steps.{State, step_of};
ghost use Rattle.session.specs.Files.{filed_step};
ghost use Rattle.session.specs.Runs.{roomy_of, Leaves};

use crate::runs::Asked;
use bench_lines::desk::Desk;
use page::Page;
use words::Unreadable;

// Why the file did not do what a line asks: the line cannot be read, as where the file cannot be opened, or the file did not take a call's records.
#[derive(Clone, Copy, PartialEq, Eq)]
pub enum Fault {
    Unread(Unreadable),
    NotWritten,
}

// Puts why a line cannot be read, and a line feed.
#[tactic(auto, using(page::proofs::Sheets::then, std::proofs::Common::take_all))]
fn unread(page: &mut Page, nth: u64, why: Unreadable)
    ensures { Puts page.old page.new (unreadable_of nth why ++ 10 ∷ []) }
{
    page.unreadable(nth, why);
    page.byte(b'\n');
}

// What is left of a line that asked something of the file and did not get it. Where its records were not taken that stands in its answer's place. Where the file was
// not opened nothing but the line's number has changed.
fn failed(d: Desk, asked: Asked, fault: Fault, page: &mut Page) -> Desk
    requires { (Sound d.bench) × (Stable d.shelf) × (Sound asked.before.bench) × (Stable asked.before.shelf) }
    ensures { (Sound result.bench) × (Stable result.shelf) × ((was : State) (line old : List ℕ) (l : Lent) (one two : List ℕ) → was.bench ≡ asked.before.bench → was.shelf ≡ asked.before.shelf → asked.from ≡ length old → roomy_of old ≡ true → Leaves was (step_of was line) old d l one two page.old → Leaves was (filed_step was line (Err fault)) old result l one two page.new) }
{
    page.truncate(asked.from);
    match fault {
        Fault::NotWritten => {
            page.text(b"door.log not written\n");
            d
        }
        Fault::Unread(why) => {
            let mut desk = asked.before;
            desk.bench.line = d.bench.line;
            unread(page, desk.bench.line, why);
            desk
        }
    }
}

// What is left of a line that asked something of the file, by what that answered.
#[tactic(auto, unfolding(crate::specs::Files::settled_of))]
pub fn settled(d: Desk, asked: Asked, answer: Result<(), Fault>, page: &mut Page) -> Desk
    requires { (Sound d.bench) × (Stable d.shelf) × (Sound asked.before.bench) × (Stable asked.before.shelf) }
    ensures { (Sound result.bench) × (Stable result.shelf) × ((was : State) (line old : List ℕ) (l : Lent) (one two : List ℕ) → was.bench ≡ asked.before.bench → was.shelf ≡ asked.before.shelf → asked.from ≡ length old → roomy_of old ≡ true → Leaves was (step_of was line) old d l one two page.old → Leaves was (filed_step was line answer) old result l one two page.new) }
{
    match answer {
        Ok(()) => d,
        Err(fault) => failed(d, asked, fault, page),
    }
}
