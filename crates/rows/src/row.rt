ghost use Rattle.std.specs.Prelude.{◌≡◌, ℕ, List};
ghost use Rattle.text.specs.Readers.{bytes};
ghost use Rattle.library.specs.Library as parts;
ghost use Rattle.base.specs.Names.{Name};
ghost use Rattle.library.specs.Views.{cell_no, definition_of};
ghost use Rattle.rows.specs.Rows.{name_at, number_at, definition_at};

use crate::fields::{Field, span, word};
use library::types::{CellNo, Definition, Symbol};
use text::reader::Span;

// A part of a library that stands in a row of W words; names stand there as their bounds in a text.
pub trait Row<const W: usize> {
    ghost Part: { Type 0 };

    // What it is, and what a row stands for, in a text.
    ghost part: { List ℕ → Self → Part };

    ghost at: { List ℕ → List ℕ → Part };

    // Its row.
    fn encode(self) -> [u64; W]
        ensures { (t : List ℕ) → at t result ≡ part t self };

    // What stands in a row; any words stand for something.
    fn decode(row: &[u64]) -> Self
        ensures { (t : List ℕ) → part t result ≡ at t row.now };
}

impl Row<2> for Span {
    ghost Part = { Name };

    ghost part = { bytes };

    ghost at = { name_at };

    fn encode(self) -> [u64; 2] {
        [self.start as u64, self.end as u64]
    }

    fn decode(row: &[u64]) -> Span {
        span(row, 0)
    }
}

impl Row<1> for CellNo {
    ghost Part = { ℕ };

    ghost part = { λ _ k. cell_no k };

    ghost at = { λ _ r. number_at r };

    fn encode(self) -> [u64; 1] {
        [self.word()]
    }

    fn decode(row: &[u64]) -> CellNo {
        CellNo::of(word(row, 0))
    }
}

impl Row<6> for Definition<Span> {
    ghost Part = { parts.Definition };

    ghost part = { λ t d. definition_of (bytes t) d };

    ghost at = { definition_at };

    fn encode(self) -> [u64; 6] {
        let Symbol { name, version } = self.symbol;
        [
            name.start as u64,
            name.end as u64,
            version.start as u64,
            version.end as u64,
            self.cell.word(),
            u64::from(self.inner),
        ]
    }

    fn decode(row: &[u64]) -> Definition<Span> {
        let name = span(row, 0);
        let version = span(row, 2);
        Definition {
            symbol: Symbol { name, version },
            cell: CellNo::of(word(row, 4)),
            inner: word(row, 5) == 1,
        }
    }
}
