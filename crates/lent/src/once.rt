ghost use Rattle.std.specs.Prelude.{◌≡◌, ◌≤◌, length, take};
ghost use Rattle.lent.specs.Once.{count_marks, Marked, Below};

// Numbers below a limit, each once, in the order in which they came, and how many of them were taken: words are lent, there is no
// heap here. No queue, whose items go when they are taken, and which can't tell whether a number came.
#[derive(Drop)]
pub struct Once<'a> {
    pub(crate) words: &'a mut [u64],
    pub(crate) marks: &'a mut [u64],
    pub(crate) len: usize,
    pub(crate) taken: usize,
    ghost order: { taken ≤ len },
    ghost within: { len ≤ length words.now },
    ghost room: { length marks.now ≤ length words.now },
    ghost counted: { len ≡ count_marks marks.now },
    ghost marked: { Marked marks.now (take len words.now) },
    ghost below: { Below (take len words.now) (length marks.now) },
}

// A number that isn't below the limit.
#[derive(Clone, Copy, PartialEq, Eq, Debug)]
pub struct AboveLimit;

impl<'a> Once<'a> {
    ghost use Rattle.std.specs.Prelude.{◌≡◌, ℕ, ◌+◌, ◌<◌, ◌↔◌, min, [], length, cond, is_ok, is_some, slice_get, IfSome, IsOk, Some, None};
    ghost use Rattle.base.specs.Lists.{has};
    ghost use Rattle.lent.specs.Once.{joined};
    ghost use Rattle.lent.specs.Numbers.{numbers, limit};

    // No numbers; the limit is the length of the shorter row.
    pub fn new(words: &'a mut [u64], marks: &'a mut [u64]) -> Once<'a>
        ensures numbers { numbers result ≡ [] }
        ensures limit { limit result ≡ min (length words.old) (length marks.old) }
        ensures taken { result.taken ≡ 0 }
    {
        let limit = words.len().min(marks.len());
        let marks = &mut marks[..limit];
        marks.fill(0);
        Once {
            words,
            marks,
            len: 0,
            taken: 0,
        }
    }

    // The number goes behind the others, unless it is there.
    pub fn add(&mut self, number: usize) -> Result<(), AboveLimit>
        ensures value { IsOk result ↔ (number < limit self.old) }
        ensures numbers { numbers self.new ≡ cond (is_ok result) (joined number (numbers self.old)) (numbers self.old) }
        ensures limit { limit self.new ≡ limit self.old }
        ensures taken { self.new.taken ≡ self.old.taken }
    {
        if number >= self.marks.len() {
            return Err(AboveLimit);
        }
        if self.marks[number] != 0 {
            return Ok(());
        }
        self.words[self.len] = number as u64;
        self.marks[number] = 1;
        self.len += 1;
        Ok(())
    }

    // The oldest number that wasn't taken yet.
    pub fn take(&mut self) -> Option<usize>
        ensures value { result ≡ slice_get (numbers self.old) self.old.taken }
        ensures below { IfSome result (λ j. (j < limit self.old) × (self.old.taken < limit self.old)) }
        ensures taken { self.new.taken ≡ cond (is_some result) (self.old.taken + 1) self.old.taken }
        ensures numbers { numbers self.new ≡ numbers self.old }
        ensures limit { limit self.new ≡ limit self.old }
    {
        if self.taken >= self.len {
            return None;
        }
        let number = self.words[self.taken];
        self.taken += 1;
        Some(number as usize)
    }

    // Whether the number came.
    pub fn contains(&self, number: usize) -> bool
        ensures { result ≡ has number (numbers self.now) }
    {
        number < self.marks.len() && self.marks[number] != 0
    }
}
