ghost use Rattle.std.specs.Prelude.{◌≤◌, length};
ghost use Rattle.std.specs.Option.{ForSome};

use crate::words::{clamp, run_len, slice};

// A part of a text, by its bounds.
#[derive(Clone, Copy, PartialEq, Eq, Debug)]
pub struct Span {
    pub start: usize,
    pub end: usize,
}

// What is left of a part of a text, if anything is.
#[derive(Clone, Copy)]
pub struct Reader<'t> {
    text: &'t [u8],
    rest: Option<Span>,
    ghost within: { ForSome rest (λ s. (s.start ≤ s.end) × (s.end ≤ length text.now)) },
}

impl<'t> Reader<'t> {
    ghost use Rattle.std.specs.Prelude.{◌≡◌, ℕ, suc, ◌+◌, ◌-◌, ◌<◌, ◌≤◌, [], ◌∷◌, length, IfSome, IfNone, MatchOption};
    ghost use Rattle.text.specs.Words.{full, cut};
    ghost use Rattle.text.specs.Readers.{bytes, Within, pieces, words, size};

    // Reads a part of the text; what lies outside of the text isn't there.
    #[tactic(auto, unfolding(crate::specs::Readers::pieces, crate::specs::Readers::size))]
    pub fn new(text: &'t [u8], part: Span) -> Reader<'t>
        ensures pieces { (c : ℕ) → pieces c result ≡ cut c [] (bytes text.now part) }
        ensures text { result.text.now ≡ text.now }
        ensures size { size result ≡ suc (length (bytes text.now part)) }
    {
        let rest = Some(clamp(text, part));
        Reader { text, rest }
    }

    // The piece up to the next byte `end`, or up to the end of what is left.
    #[tactic(auto, unfolding(crate::specs::Readers::pieces, crate::specs::Readers::size))]
    pub fn next(&mut self, end: u8) -> Option<Span>
        ensures text { self.new.text.now ≡ self.old.text.now }
        ensures within { IfSome result (Within self.old.text.now) }
        ensures pieces { MatchOption result (pieces end self.old ≡ []) (λ x. pieces end self.old ≡ bytes self.old.text.now x ∷ pieces end self.new) }
        ensures falls { IfSome result (λ x. size self.new + suc (length (bytes self.old.text.now x)) ≤ size self.old) }
        ensures at_end { IfNone result ((self.new ≡ self.old) × (size self.old ≡ 0)) }
    {
        let Span { start, end: stop } = self.rest?;
        let middle = start + run_len(&self.text[start..stop], end);
        self.rest = (middle < stop).then_some(Span {
            start: middle + 1,
            end: stop,
        });
        Some(Span { start, end: middle })
    }

    // The next piece that isn't empty.
    pub fn next_full(&mut self, end: u8) -> Option<Span>
        ensures text { self.new.text.now ≡ self.old.text.now }
        ensures within { IfSome result (Within self.old.text.now) }
        ensures pieces { MatchOption result (full (pieces end self.old) ≡ []) (λ x. full (pieces end self.old) ≡ bytes self.old.text.now x ∷ full (pieces end self.new)) }
        ensures at_end { IfNone result ((pieces end self.new ≡ []) × (size self.new ≡ 0)) }
    {
        loop {
            let piece = self.next(end)?;
            if piece.start < piece.end {
                return Some(piece);
            }
        }
    }

    // The next line.
    pub fn line(&mut self) -> Option<Span>
        ensures text { self.new.text.now ≡ self.old.text.now }
        ensures within { IfSome result (Within self.old.text.now) }
        ensures line { MatchOption result (pieces 10 self.old ≡ []) (λ x. pieces 10 self.old ≡ bytes self.old.text.now x ∷ pieces 10 self.new) }
        ensures falls { IfSome result (λ x. size self.new + suc (length (bytes self.old.text.now x)) ≤ size self.old) }
        ensures at_end { IfNone result ((self.new ≡ self.old) × (size self.old ≡ 0)) }
    {
        self.next(b'\n')
    }

    // The next word.
    #[tactic(auto, unfolding(crate::specs::Readers::words))]
    pub fn word(&mut self) -> Option<Span>
        ensures text { self.new.text.now ≡ self.old.text.now }
        ensures within { IfSome result (Within self.old.text.now) }
        ensures word { MatchOption result (words self.old ≡ []) (λ x. words self.old ≡ bytes self.old.text.now x ∷ words self.new) }
        ensures at_end { IfNone result ((words self.new ≡ []) × (size self.new ≡ 0)) }
    {
        self.next_full(b' ')
    }

    // A part of the text.
    pub fn part(&self, part: Span) -> &'t [u8]
        ensures { result.now ≡ bytes self.now.text.now part }
    {
        slice(self.text, part)
    }
}
