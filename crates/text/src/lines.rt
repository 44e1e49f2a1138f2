ghost use Rattle.std.specs.Prelude.{◌≡◌, suc, length, IfSome, MatchOption, []};
ghost use Rattle.std.specs.Iterator.{at_most};
ghost use Rattle.text.specs.Words.{cut};
ghost use Rattle.text.specs.Readers.{bytes, Within, pieces, size, NextLine};

use crate::reader::{Reader, Span};

// The lines of a part of a text, by their bounds.
#[derive(Clone, Copy)]
pub struct Lines<'t>(Reader<'t>);

impl<'t> Lines<'t> {
    pub fn new(text: &'t [u8], part: Span) -> Lines<'t>
        ensures lines { pieces 10 result.0 ≡ cut 10 [] (bytes text.now part) }
        ensures text { result.0.text.now ≡ text.now }
        ensures size { size result.0 ≡ suc (length (bytes text.now part)) }
    {
        Lines(Reader::new(text, part))
    }
}

impl Iterator for Lines<'_> {
    type Item = Span;

    ghost next_gives = { λ s r t. NextLine s.0 r t.0 };

    ghost remaining = { λ s. at_most (size s.0) };

    fn next(&mut self) -> Option<Span> {
        self.0.line()
    }
}
