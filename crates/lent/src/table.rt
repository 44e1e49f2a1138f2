ghost use Rattle.std.specs.Prelude.{◌*◌, ◌≤◌, length};

use crate::refusals::{Full, NoSuchRow};

// Rows of W words each, one after the other; words past the last row are free: words are lent, there is no heap here.
#[derive(Drop)]
pub struct Table<'a, const W: usize> {
    pub words: &'a mut [u64],
    pub len: usize,
    ghost fits: { W * len ≤ length words.now },
}

impl<'a, const W: usize> Table<'a, W> {
    ghost use Rattle.std.specs.Prelude.{◌≡◌, ◌+◌, ◌<◌, ◌&&◌, min, ◌⊎◌, [], ◌∷◌, ◌++◌, take, MatchOption, is_ok, OnErr, nat_le, nat_lt, slice_index, slice_index_or, cond, slice_get, slice_set};
    ghost use Rattle.std.specs.Option.{option_map};
    ghost use Rattle.lent.specs.Tables.{rows_in};

    // No rows yet, in all of the words.
    pub fn new(words: &'a mut [u64]) -> Table<'a, W>
        ensures len { result.len ≡ 0 }
        ensures words { result.words.now ≡ words.old }
        ensures rows { rows_in W result ≡ [] }
    {
        Table { words, len: 0 }
    }

    // One more row at the end. Rows of no words are refused: any number of them would fit.
    pub fn push(&mut self, row: &[u64; W]) -> Result<(), Full>
        ensures room { is_ok result ≡ (nat_lt 0 W && nat_le (W * self.old.len + W) (length self.old.words.now)) }
        ensures rows { rows_in W self.new ≡ cond (is_ok result) (rows_in W self.old ++ row.now ∷ []) (rows_in W self.old) }
        ensures len { self.new.len ≡ cond (is_ok result) (self.old.len + 1) self.old.len }
        ensures size { length self.new.words.now ≡ length self.old.words.now }
        ensures same { OnErr result (self.new ≡ self.old) }
    {
        let at = W * self.len;
        if W == 0 || self.words.len() - at < W {
            return Err(Full);
        }
        self.words[at..at + W].copy_from_slice(row);
        self.len += 1;
        Ok(())
    }

    // Word j of row i.
    pub fn get(&self, i: usize, j: usize) -> Option<u64>
        ensures { MatchOption result ((self.now.len ≤ i) ⊎ (W ≤ j)) (λ x. (i < self.now.len) × (j < W) × (x ≡ slice_index (slice_index_or (rows_in W self.now) i []) j)) }
    {
        self.row(i)?.get(j).copied()
    }

    // Row i.
    pub fn row(&self, i: usize) -> Option<&[u64]>
        ensures value { (option_map (λ x. x.now) result) ≡ slice_get (rows_in W self.now) i }
        ensures size { MatchOption result (self.now.len ≤ i) (λ x. (i < self.now.len) × (length x.now ≡ W)) }
    {
        if i >= self.len {
            return None;
        }
        let start = W * i;
        Some(&self.words[start..start + W])
    }

    // Another row in the place of row i.
    pub fn set(&mut self, i: usize, row: &[u64; W]) -> Result<(), NoSuchRow>
        ensures found { is_ok result ≡ nat_lt i self.old.len }
        ensures rows { rows_in W self.new ≡ slice_set (rows_in W self.old) i row.now }
        ensures len { self.new.len ≡ self.old.len }
        ensures size { length self.new.words.now ≡ length self.old.words.now }
        ensures same { OnErr result (self.new ≡ self.old) }
    {
        if i >= self.len {
            return Err(NoSuchRow);
        }
        let at = W * i;
        self.words[at..at + W].copy_from_slice(row);
        Ok(())
    }

    // At most the first n rows stay.
    pub fn truncate(&mut self, n: usize)
        ensures rows { rows_in W self.new ≡ take n (rows_in W self.old) }
        ensures len { self.new.len ≡ min self.old.len n }
        ensures words { self.new.words.now ≡ self.old.words.now }
    {
        self.len = self.len.min(n);
    }
}
