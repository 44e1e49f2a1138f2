// A stack in lent words.
ghost use Rattle.std.specs.Prelude.{◌≤◌, length};

// It grows down from their end: what it holds, newest first, are the words from `free` on. Words are lent, there is no heap here.
// It shares no code with the log, which is read in the other order and grows the other way.
#[derive(Drop)]
pub struct Stack<'a> {
    items: &'a mut [u64],
    free: usize,
    ghost within: { free ≤ length items.now },
}

impl<'a> Stack<'a> {
    ghost use Rattle.std.specs.Prelude.{◌≡◌, ◌+◌, ◌<◌, [], ◌∷◌, MatchOption};
    ghost use Rattle.machine.specs.Held.{held, free};

    pub fn new(items: &'a mut [u64]) -> Stack<'a>
        ensures held { held result ≡ [] }
        ensures free { free result ≡ length items.old }
    {
        let free = items.len();
        Stack { items, free }
    }

    pub fn push(&mut self, x: u64)
        requires { 0 < free self.old }
        ensures held { held self.new ≡ x ∷ held self.old }
        ensures free { free self.new + 1 ≡ free self.old }
    {
        self.free -= 1;
        self.items[self.free] = x;
    }

    // The newest word, taken off; nothing changes where there is none.
    #[tactic(auto, using(std::proofs::lemmas::List::drop_more))]
    pub fn pop(&mut self) -> Option<u64>
        ensures held { MatchOption result ((held self.old ≡ []) × (self.new ≡ self.old)) (λ x. held self.old ≡ x ∷ held self.new) }
        ensures free { free self.old ≤ free self.new }
    {
        // get leaves open here what the words are behind the &mut
        if self.free == self.items.len() {
            return None;
        }
        let x = self.items[self.free];
        self.free += 1;
        Some(x)
    }

    pub fn room_left(&self) -> usize
        ensures { result ≡ free self.now }
    {
        self.free
    }
}
