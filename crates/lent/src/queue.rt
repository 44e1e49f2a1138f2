ghost use Rattle.std.specs.Prelude.{◌≤◌, length};

use crate::refusals::Full;

// Words first in, first out: those from head to tail are still to come: words are lent, there is no heap here.
// A place is used once, so in all as many can be pushed as there are lent words. So it shares no code with a table, whose rows stay.
#[derive(Drop)]
pub struct Queue<'a> {
    words: &'a mut [u64],
    head: usize,
    tail: usize,
    ghost order: { head ≤ tail },
    ghost within: { tail ≤ length words.now },
}

impl<'a> Queue<'a> {
    ghost use Rattle.std.specs.Prelude.{◌≡◌, ◌+◌, [], ◌∷◌, ◌++◌, MatchOption, is_ok, OnErr, ◌==◌, nat_lt, cond};
    ghost use Rattle.lent.specs.Queues.{items};

    // An empty queue, with all of the words to use.
    pub fn new(words: &'a mut [u64]) -> Queue<'a>
        ensures items { items result ≡ [] }
        ensures tail { result.tail ≡ 0 }
        ensures words { result.words.now ≡ words.old }
    {
        Queue {
            words,
            head: 0,
            tail: 0,
        }
    }

    // One more at the end, unless every word was used.
    pub fn push(&mut self, x: u64) -> Result<(), Full>
        ensures room { is_ok result ≡ nat_lt self.old.tail (length self.old.words.now) }
        ensures items { items self.new ≡ cond (is_ok result) (items self.old ++ x ∷ []) (items self.old) }
        ensures tail { self.new.tail ≡ cond (is_ok result) (self.old.tail + 1) self.old.tail }
        ensures size { length self.new.words.now ≡ length self.old.words.now }
        ensures same { OnErr result (self.new ≡ self.old) }
    {
        if self.tail >= self.words.len() {
            return Err(Full);
        }
        self.words[self.tail] = x;
        self.tail += 1;
        Ok(())
    }

    // The first one, which goes.
    pub fn pop(&mut self) -> Option<u64>
        ensures items { MatchOption result ((items self.old ≡ []) × (items self.new ≡ [])) (λ x. items self.old ≡ x ∷ items self.new) }
        ensures tail { self.new.tail ≡ self.old.tail }
        ensures words { self.new.words.now ≡ self.old.words.now }
    {
        if self.head >= self.tail {
            return None;
        }
        let first = self.words[self.head];
        self.head += 1;
        Some(first)
    }

    // How many are still to come.
    pub fn len(&self) -> usize
        ensures { result ≡ length (items self.now) }
    {
        self.tail - self.head
    }

    // Whether none is to come.
    pub fn is_empty(&self) -> bool
        ensures { result ≡ (length (items self.now) == 0) }
    {
        self.len() == 0
    }
}
