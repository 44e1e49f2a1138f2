ghost use Rattle.std.specs.Prelude.{◌≡◌, ◌+◌, ◌*◌, ◌≤◌, length};

use lent::once::Once;
use lent::table::Table;
use library::types::LibraryId;

// A walk through needs, depth first: the libraries that were entered and not left, each with how many of its needs were looked at; all
// that were entered; and those that were left, in this order.
#[derive(Drop)]
pub(crate) struct Walk<'a> {
    pub(crate) entered: Table<'a, 2>,
    pub(crate) seen: Once<'a>,
    pub(crate) left: Table<'a, 1>,
    ghost room: { 2 * length seen.marks.now ≤ length entered.words.now },
    ghost done_room: { length seen.marks.now ≤ length left.words.now },
    ghost balanced: { entered.len + left.len ≡ seen.len },
}

// A library that was entered, and how many of its needs were looked at.
#[derive(Clone, Copy, PartialEq, Eq, Debug)]
pub(crate) struct Visit {
    pub(crate) library: LibraryId,
    pub(crate) looked: usize,
}

// Words lent for a walk: two for each library that is entered, and one each for those that are seen, their marks, and those that are left.
#[derive(Drop)]
pub struct WalkWords<'a> {
    pub entered: &'a mut [u64],
    pub seen: &'a mut [u64],
    pub marks: &'a mut [u64],
    pub left: &'a mut [u64],
}

impl<'a> WalkWords<'a> {
    ghost use Rattle.needs.specs.Visits.{walk_room};

    // How many libraries there is room for.
    pub(crate) fn room(&self) -> usize
        ensures { result ≡ walk_room self.now }
    {
        let marked = self.seen.len().min(self.marks.len());
        (self.entered.len() / 2).min(marked.min(self.left.len()))
    }
}

impl<'a> Walk<'a> {
    ghost use Rattle.std.specs.Prelude.{ℕ, ◌-◌, ◌<◌, List, [], ◌∷◌, ◌++◌, false, take, MatchOption, Some, None, map, cond, slice_set, ◌^◌};
    ghost use Rattle.base.specs.Lists.{has};
    ghost use Rattle.lent.specs.Numbers.{numbers, limit};
    ghost use Rattle.lent.specs.Once.{joined};
    ghost use Rattle.lent.specs.Tables.{column};
    ghost use Rattle.needs.specs.Walks.{entered_in};
    ghost use Rattle.needs.specs.Visits.{visit_of, walk_room};

    // Nothing is entered yet; of so many libraries.
    pub(crate) fn new(words: WalkWords<'a>, count: usize) -> Walk<'a>
        requires { count ≤ walk_room words }
        ensures entered { entered_in result.entered ≡ [] }
        ensures seen { numbers result.seen ≡ [] }
        ensures limit { limit result.seen ≡ count }
        ensures left { column result.left ≡ [] }
    {
        let WalkWords {
            entered,
            seen,
            marks,
            left,
        } = words;
        Walk {
            entered: Table::new(entered),
            seen: Once::new(seen, &mut marks[..count]),
            left: Table::new(left),
        }
    }

    // The library that was entered last.
    pub(crate) fn last(&self) -> Option<Visit>
        ensures { MatchOption result (entered_in self.now.entered ≡ []) (λ v. entered_in self.now.entered ≡ take (self.now.entered.len - 1) (entered_in self.now.entered) ++ visit_of v ∷ []) }
    {
        let row = self.entered.row(self.entered.len.checked_sub(1)?)?;
        Some(Visit {
            library: LibraryId(row[0] as usize),
            looked: row[1] as usize,
        })
    }

    // One more need of the last library was looked at.
    pub(crate) fn look(&mut self, visit: Visit)
        requires { visit.looked + 1 < 2 ^ 64 }
        ensures entered { entered_in self.new.entered ≡ slice_set (entered_in self.old.entered) (self.old.entered.len - 1) (record { library = visit.library.0; looked = visit.looked + 1 }) }
        ensures len { self.new.entered.len ≡ self.old.entered.len }
        ensures seen { self.new.seen ≡ self.old.seen }
        ensures left { self.new.left ≡ self.old.left }
    {
        let last = self.entered.len.saturating_sub(1);
        let row = [visit.library.0 as u64, visit.looked as u64 + 1];
        // Where nothing was entered there is no last row.
        let _ = self.entered.set(last, &row);
    }

    // A library is entered, unless it was before.
    pub(crate) fn enter(&mut self, library: LibraryId)
        requires { library.0 < limit self.old.seen }
        ensures entered { entered_in self.new.entered ≡ cond (has library.0 (numbers self.old.seen)) (entered_in self.old.entered) (entered_in self.old.entered ++ record { library = library.0; looked = 0 } ∷ []) }
        ensures seen { numbers self.new.seen ≡ joined library.0 (numbers self.old.seen) }
        ensures limit { limit self.new.seen ≡ limit self.old.seen }
        ensures left { column self.new.left ≡ column self.old.left }
    {
        if self.seen.contains(library.0) {
            return;
        }
        let _ = self.seen.add(library.0);
        let _ = self.entered.push(&[library.0 as u64, 0]);
    }

    // The last library is left.
    pub(crate) fn leave(&mut self, library: LibraryId)
        requires { 0 < self.old.entered.len }
        ensures entered { entered_in self.new.entered ≡ take (self.old.entered.len - 1) (entered_in self.old.entered) }
        ensures seen { self.new.seen ≡ self.old.seen }
        ensures left { column self.new.left ≡ column self.old.left ++ library.0 ∷ [] }
    {
        let last = self.entered.len - 1;
        self.entered.truncate(last);
        let _ = self.left.push(&[library.0 as u64]);
    }
}
