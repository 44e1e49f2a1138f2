ghost use Rattle.std.specs.Prelude.{◌≡◌};
ghost use Rattle.base.specs.Names.{same};
ghost use Rattle.library.specs.Keywords.{k_lib};
ghost use Rattle.library.specs.Text.{bad};
ghost use Rattle.reading.specs.Steps.{mute};

use library::faults::{BadLine, LineFault};
use text::reader::Reader;

// A line of the text, by its number, counted from 1, and what is left of its words.
#[derive(Clone, Copy)]
pub(crate) struct Line<'t> {
    pub number: usize,
    pub rest: Reader<'t>,
}

impl<'t> Line<'t> {
    // What is wrong with it.
    pub(crate) fn bad(&self, fault: LineFault) -> BadLine
        ensures { result ≡ bad self.now.number fault }
    {
        BadLine {
            line: self.number,
            fault,
        }
    }
}

// Whether a line that begins with this word says nothing.
pub(crate) fn is_comment(word: &[u8]) -> bool
    ensures { result ≡ mute word.now }
{
    match word {
        [] => true,
        [first, ..] => *first == b'#',
    }
}

// Whether a line that begins with this word begins a library.
pub(crate) fn is_lib(word: &[u8]) -> bool
    ensures { result ≡ same word.now k_lib }
{
    word == b"lib".as_slice()
}
