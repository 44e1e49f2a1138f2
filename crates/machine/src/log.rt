// What was shown.
ghost use Rattle.std.specs.Prelude.{◌≤◌, length};

// A number, or that one was read.
#[derive(Clone, Copy, PartialEq, Eq, Debug)]
pub enum Shown {
    Number(u64),
    Read,
}

// What was shown so far, oldest first: the first `len` of the lent items. They are lent, there is no heap here.
#[derive(Drop)]
pub struct Log<'a> {
    items: &'a mut [Shown],
    len: usize,
    ghost within: { len ≤ length items.now },
}

impl<'a> Log<'a> {
    ghost use Rattle.std.specs.Prelude.{◌≡◌, ◌+◌, ◌<◌, [], ◌∷◌, ◌++◌, map};
    ghost use Rattle.machine.specs.Held.{logged, number, unused};

    pub fn new(items: &'a mut [Shown]) -> Log<'a>
        ensures empty { logged result ≡ [] }
        ensures unused { unused result ≡ length items.old }
    {
        Log { items, len: 0 }
    }

    pub fn push(&mut self, x: Shown)
        requires { 0 < unused self.old }
        ensures logged { logged self.new ≡ logged self.old ++ (number x ∷ []) }
        ensures unused { unused self.new + 1 ≡ unused self.old }
    {
        self.items[self.len] = x;
        self.len += 1;
    }

    pub fn room_left(&self) -> usize
        ensures { result ≡ unused self.now }
    {
        self.items.len() - self.len
    }

    // All that was shown.
    pub fn all(&self) -> &[Shown]
        ensures { map number result.now ≡ logged self.now }
    {
        &self.items[..self.len]
    }
}
