ghost use Rattle.std.specs.Prelude.{◌≡◌, ℕ, ◌+◌, ◌<◌, ◌&&◌, List, [], ◌∷◌, ◌++◌, length, replicate, is_ok, OnOk, nat_lt, slice_index, slice_set, cond};
ghost use Rattle.lent.specs.Indexes.{bucket_of, entry_of, Holds, IsNewest};

use crate::refusals::Full;

// Chains of entries by bucket, the newest first: of each bucket its newest entry, and of each entry the next older one of its bucket.
// Entry k is stored as k + 1, and 0 is none: words are lent, there is no heap here.
#[derive(Drop)]
pub struct Index<'a> {
    pub heads: &'a mut [u64],
    pub next: &'a mut [u64],
}

// The bucket of a name, of count buckets; 0 where there are none.
pub fn bucket(name: &[u8], count: usize) -> usize
    ensures value { result ≡ bucket_of name.now count }
    ensures bound { 0 < count → result < count }
{
    if count == 0 {
        return 0;
    }
    let hash = name.iter().fold(7u32, |hash, byte| {
        hash.wrapping_mul(31).wrapping_add(u32::from(*byte))
    });
    hash as usize % count
}

// The entry that word i stands for.
fn entry_at(words: &[u64], i: usize) -> Option<usize>
    ensures { result ≡ entry_of (slice_index words.now i) }
{
    let word = *words.get(i)?;
    (word as usize).checked_sub(1)
}

impl<'a> Index<'a> {
    // No entry in any bucket.
    pub fn new(heads: &'a mut [u64], next: &'a mut [u64]) -> Index<'a>
        ensures heads { result.heads.now ≡ replicate (length heads.old) 0 }
        ensures next { result.next.now ≡ next.old }
        ensures indexed { (bs : List ℕ) → Holds result bs 0 }
    {
        heads.fill(0);
        Index { heads, next }
    }

    // Takes all entries out.
    pub fn clear(&mut self)
        ensures heads { self.new.heads.now ≡ replicate (length self.old.heads.now) 0 }
        ensures next { self.new.next.now ≡ self.old.next.now }
        ensures indexed { (bs : List ℕ) → Holds self.new bs 0 }
    {
        self.heads.fill(0);
    }

    // Entry n goes into bucket h as its newest, unless there is no such bucket or no room for the entry.
    pub fn insert(&mut self, n: usize, h: usize) -> Result<(), Full>
        ensures room { is_ok result ≡ (nat_lt h (length self.old.heads.now) && nat_lt n (length self.old.next.now)) }
        ensures heads { self.new.heads.now ≡ cond (is_ok result) (slice_set self.old.heads.now h (n + 1)) self.old.heads.now }
        ensures next { self.new.next.now ≡ cond (is_ok result) (slice_set self.old.next.now n (slice_index self.old.heads.now h)) self.old.next.now }
        ensures indexed { OnOk result ((bs : List ℕ) → slice_index bs n ≡ h → Holds self.old bs n → Holds self.new bs (n + 1)) }
        ensures grown { OnOk result ((bs : List ℕ) → length bs ≡ n → Holds self.old bs n → Holds self.new (bs ++ h ∷ []) (n + 1)) }
    {
        if h >= self.heads.len() || n >= self.next.len() {
            return Err(Full);
        }
        self.next[n] = self.heads[h];
        self.heads[h] = n as u64 + 1;
        Ok(())
    }

    // The newest entry of bucket h.
    pub fn first(&self, h: usize) -> Option<usize>
        ensures value { result ≡ entry_of (slice_index self.now.heads.now h) }
        ensures newest { (bs : List ℕ) (n : ℕ) → Holds self.now bs n → h < length self.now.heads.now → IsNewest bs h n result }
    {
        entry_at(self.heads, h)
    }

    // The next older entry in the bucket of entry k.
    pub fn older(&self, k: usize) -> Option<usize>
        ensures value { result ≡ entry_of (slice_index self.now.next.now k) }
        ensures newest { (bs : List ℕ) (n h : ℕ) → Holds self.now bs n → k < n → slice_index bs k ≡ h → IsNewest bs h k result }
    {
        entry_at(self.next, k)
    }
}
