ghost use Rattle.std.specs.Prelude.{◌≡◌, Ok, Err, MatchResult};
ghost use Rattle.text.specs.Readers.{bytes, words};
ghost use Rattle.library.specs.Lines.{item_line};
ghost use Rattle.lines.specs.Items.{item_of};

use crate::cells::cell;
use library::faults::LineFault;
use library::types::{Definition, Item};
use operands::{Inner, end, only};
use text::reader::{Reader, Span};

// What a line says, by its first word and the words behind it.
pub fn item(keyword: &[u8], line: &mut Reader) -> Result<Item<Span>, LineFault>
    ensures { MatchResult result (λ i. item_line keyword.now (words line.old) ≡ Ok (item_of (bytes line.old.text.now) i)) (λ e. item_line keyword.now (words line.old) ≡ Err e) }
{
    match keyword {
        b"inward" => {
            end(line)?;
            Ok(Item::Inward)
        }
        b"needs" => Ok(Item::Needs(only(line)?)),
        b"def" => {
            let (symbol, cell, Inner(inner)) = only(line)?;
            Ok(Item::Define(Definition {
                symbol,
                cell,
                inner,
            }))
        }
        b"init" => Ok(Item::Init(only(line)?)),
        b"fini" => Ok(Item::Fini(only(line)?)),
        _ => Ok(Item::Cell(cell(keyword, line)?)),
    }
}
