ghost use Rattle.std.specs.Prelude.{◌≡◌};
ghost use Rattle.library.specs.declared.faults.ReadFault.TheVariants.{Line};

use thiserror::Error;

// What is wrong with a line of a text.
#[derive(Clone, Copy, PartialEq, Eq, Debug, Error)]
pub enum LineFault {
    // The first word is no keyword.
    #[error("unknown keyword")]
    UnknownKeyword,
    // It comes before the first `lib`.
    #[error("a line before the first lib")]
    OutsideLibrary,
    #[error("too few words")]
    MissingWord,
    #[error("too many words")]
    SurplusWord,
    #[error("not a register (0 to 7)")]
    NotRegister,
    #[error("not a cell's number (below 65536)")]
    NotCell,
    #[error("not a number (below 4294967296)")]
    NotNumber,
    // Neither of the two words that may stand there.
    #[error("neither of the two words that may stand here")]
    NotChoice,
    #[error("a second library of that name")]
    DuplicateLibrary,
    #[error("more than 65535 cells")]
    TooManyCells,
    // It names a cell that its library doesn't have.
    #[error("a cell that the library doesn't have")]
    NoSuchCell,
}

// A line, counted from 1, and what is wrong with it.
#[derive(Clone, Copy, PartialEq, Eq, Debug, Error)]
#[error("line {line}: {fault}")]
pub struct BadLine {
    pub line: usize,
    pub fault: LineFault,
}

// Why a text can't be read into lent words: a bad line, or too few words.
#[derive(Clone, Copy, PartialEq, Eq, Debug, Error)]
pub enum ReadFault {
    #[error(transparent)]
    Line(BadLine),
    #[error("too few words are lent")]
    TooFewWords,
}

// By hand: what `#[from]` writes has no contract.
impl From<BadLine> for ReadFault {
    ghost from_gives = { λ e r. r ≡ Line e };

    fn from(bad: BadLine) -> ReadFault {
        ReadFault::Line(bad)
    }
}
