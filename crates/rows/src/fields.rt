ghost use Rattle.std.specs.Prelude.{◌≡◌, ℕ, ◌+◌, ◌%◌, ◌<◌, slice_index};
ghost use Rattle.library.specs.Views.{reg, cell_no};

use library::types::{CellNo, Register};
use text::reader::Span;

// What stands in a word: a number below a limit.
pub(crate) trait Field {
    ghost number: { Self → ℕ };

    ghost limit: { ℕ };

    fn word(self) -> u64
        ensures word { result ≡ number self }
        ensures small { number self < limit };

    // Any word stands for something.
    fn of(word: u64) -> Self
        ensures { number result ≡ word % limit };
}

impl Field for Register {
    ghost number = { reg };

    ghost limit = { 8 };

    fn word(self) -> u64 {
        u64::from(self.number())
    }

    fn of(word: u64) -> Register {
        Register::wrapping(word)
    }
}

impl Field for CellNo {
    ghost number = { cell_no };

    ghost limit = { 65536 };

    fn word(self) -> u64 {
        u64::from(self.0)
    }

    fn of(word: u64) -> CellNo {
        CellNo((word % 65536) as u16)
    }
}

impl Field for u32 {
    ghost number = { λ n. n };

    ghost limit = { 4294967296 };

    fn word(self) -> u64 {
        u64::from(self)
    }

    fn of(word: u64) -> u32 {
        (word % 4294967296) as u32
    }
}

// Field i of a row; 0 past its end.
pub fn word(row: &[u64], i: usize) -> u64
    ensures { result ≡ slice_index row.now i }
{
    row.get(i).copied().unwrap_or(0)
}

// The part of a text whose bounds stand at word i.
pub(crate) fn span(row: &[u64], i: usize) -> Span
    requires { i < 6 }
    ensures start { result.start ≡ slice_index row.now i }
    ensures end { result.end ≡ slice_index row.now (i + 1) }
{
    Span {
        start: word(row, i) as usize,
        end: word(row, i + 1) as usize,
    }
}
