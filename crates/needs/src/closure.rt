ghost use Rattle.std.specs.Prelude.{◌≡◌, ℕ, ◌<◌, ◌≤◌, min, [], length, None, Some, MatchResult, slice_get};
ghost use Rattle.std.specs.Option.{option_map, option_flatten};
ghost use Rattle.libraries.specs.Looks.{library_no};
ghost use Rattle.lent.specs.Numbers.{numbers, limit};
ghost use Rattle.needs.specs.Numbered.{needed, fold_some, joined_some, closure_numbers, ClosureByNumber};
ghost use Rattle.needs.specs.Refusals.{IsMissing, Refused};

use crate::faults::{MissingLibrary, NotGathered};
use lent::once::Once;
use libraries::Libraries;
use library::types::LibraryId;

// The number of need j of a library.
pub(crate) fn need_number<'t, L: Libraries<'t>>(
    libraries: &L,
    library: LibraryId,
    need: usize,
) -> Option<LibraryId>
    ensures { option_map library_no result ≡ option_flatten (slice_get (needed (L.libs libraries.now) library.0) need) }
{
    libraries.find(libraries.need(library, need)?)
}

// How many lines `needs` a library has.
pub(crate) fn count_needs<'t, L: Libraries<'t>>(libraries: &L, library: LibraryId) -> usize
    ensures { result ≡ length (needed (L.libs libraries.now) library.0) }
{
    libraries.sizes(library).map_or(0, |sizes| sizes.needs)
}

// What a library needs, put behind the others.
fn gather_needs<'t, L: Libraries<'t>>(
    libraries: &L,
    library: LibraryId,
    gathered: &mut Once,
) -> Result<(), MissingLibrary>
    requires { length (L.libs libraries.now) ≤ limit gathered.old }
    ensures numbers { MatchResult result (λ _. fold_some joined_some (needed (L.libs libraries.now) library.0) (numbers gathered.old) ≡ Some (numbers gathered.new)) (λ m. (fold_some joined_some (needed (L.libs libraries.now) library.0) (numbers gathered.old) ≡ None) × IsMissing (L.libs libraries.now) m) }
    ensures taken { gathered.new.taken ≡ gathered.old.taken }
    ensures limit { limit gathered.new ≡ limit gathered.old }
{
    for need in 0..count_needs(libraries, library) {
        let Some(needed) = need_number(libraries, library, need) else {
            return Err(MissingLibrary { library, need });
        };
        // A library of the text is below the limit.
        let _ = gathered.add(needed.0);
    }
    Ok(())
}

// A library with all that it needs, breadth first, in the order of lines, each once.
pub fn gather<'t, 'a, L: Libraries<'t>>(
    libraries: &L,
    first: LibraryId,
    words: &'a mut [u64],
    marks: &'a mut [u64],
) -> Result<Once<'a>, NotGathered>
    ensures { MatchResult result (λ o. closure_numbers (L.libs libraries.now) first.0 ≡ Some (numbers o)) (Refused (L.libs libraries.now) first.0 (min (length words.old) (length marks.old))) }
{
    let count = libraries.len();
    if first.0 >= count {
        return Err(NotGathered::NoSuchLibrary);
    }
    if words.len() < count || marks.len() < count {
        return Err(NotGathered::TooFewWords);
    }
    let mut gathered = Once::new(words, &mut marks[..count]);
    let _ = gathered.add(first.0);
    while let Some(library) = gathered.take() {
        gather_needs(libraries, LibraryId(library), &mut gathered)?;
    }
    Ok(gathered)
}

// The closure by numbers is the closure by names.
pub fn closure_by_number() -> u8
    ensures { ClosureByNumber }
{
    0
}
