// The words of a line, one after the other, as what they stand for.
#![tactic(auto)]

ghost use Rattle.std.specs.Prelude.{◌≡◌, Ok, Err, MatchResult};
ghost use Rattle.text.specs.Readers.{words};
ghost use Rattle.library.specs.Lines.{whole};

mod operand;
mod words;

pub use crate::operand::{Global, Inner, Must, Operand};
pub use crate::words::{end, word};
use library::faults::LineFault;
use text::reader::Reader;

// A line that has this operand, or these, and nothing else.
pub fn only<A: Operand + Drop>(line: &mut Reader) -> Result<A, LineFault>
    ensures { MatchResult result (λ x. whole A.read (words line.old) ≡ Ok (A.meant line.old.text.now x)) (λ e. whole A.read (words line.old) ≡ Err e) }
{
    let operand = A::take(line)?;
    end(line)?;
    Ok(operand)
}
