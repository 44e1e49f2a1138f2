ghost use Rattle.std.specs.Prelude.{◌≡◌, Ok, Err, MatchResult};
ghost use Rattle.text.specs.Readers.{bytes, words};
ghost use Rattle.library.specs.Lines.{cell_line};
ghost use Rattle.library.specs.Views.{cell_of};

use instructions::instruction;
use library::faults::LineFault;
use library::types::Cell;
use operands::{Must, only};
use text::reader::{Reader, Span};

// The cell that a line says, by its first word and the words behind it.
pub fn cell(keyword: &[u8], line: &mut Reader) -> Result<Cell<Span>, LineFault>
    ensures { MatchResult result (λ c. cell_line keyword.now (words line.old) ≡ Ok (cell_of (bytes line.old.text.now) c)) (λ e. cell_line keyword.now (words line.old) ≡ Err e) }
{
    match keyword {
        b"word" => Ok(Cell::Number(only(line)?)),
        b"ref" => {
            let (symbol, offset, Must(must)) = only(line)?;
            Ok(Cell::Ref(symbol, offset, must))
        }
        b"at" => Ok(Cell::At(only(line)?)),
        b"slot" => Ok(Cell::Slot(only(line)?)),
        b"name" => Ok(Cell::Name(only(line)?)),
        _ => Ok(Cell::Code(instruction(keyword, line)?)),
    }
}
