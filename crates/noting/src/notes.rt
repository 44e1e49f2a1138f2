// Notes of what was poked where.
ghost use Rattle.std.specs.Prelude.{◌≡◌, true, []};
ghost use Rattle.noting.specs.Kept.{kept, Noted};

use std::alloc::Global;

// What was poked, and at which address.
#[derive(Clone, Copy, PartialEq, Eq, Debug)]
pub struct Poke {
    pub at: usize,
    pub word: u64,
}

// The pokes so far, oldest first; complete until memory is short for one. There are pokes either way, so a flag says it.
#[derive(Drop)]
pub struct Notes {
    pub(crate) pokes: Vec<Poke>,
    pub(crate) complete: bool,
}

impl Notes {
    pub fn new(heap: Global) -> Notes
        ensures { kept result ≡ record { pokes = []; complete = true } }
    {
        Notes {
            pokes: Vec::new(heap),
            complete: true,
        }
    }

    pub fn note(&mut self, poke: Poke)
        ensures { Noted (kept self.old) poke (kept self.new) }
    {
        if self.pokes.push(poke).is_err() {
            self.complete = false;
        }
    }
}
