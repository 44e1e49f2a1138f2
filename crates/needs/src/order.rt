ghost use Rattle.std.specs.Prelude.{◌≡◌, ℕ, ◌+◌, ◌-◌, ◌*◌, ◌/◌, ◌<◌, ◌≤◌, [], ◌∷◌, ◌++◌, min, map, length, take, Some, OnOk, MatchResult};
ghost use Rattle.base.specs.Names.{Name};
ghost use Rattle.libraries.specs.Looks.{number_of};
ghost use Rattle.lent.specs.Numbers.{numbers, limit};
ghost use Rattle.links.specs.Closure.{init_order};
ghost use Rattle.needs.specs.Numbered.{name_at};
ghost use Rattle.needs.specs.Refusals.{IsMissing, Unordered};
ghost use Rattle.needs.specs.Standing.{Stands, work};
ghost use Rattle.needs.specs.Visits.{visit_of, walk_room};
ghost use Rattle.lent.specs.Tables.{column};
ghost use Rattle.needs.specs.Walks.{entered_in};

use crate::closure::{count_needs, need_number};
use crate::faults::{MissingLibrary, NotGathered};
use crate::walk::{Visit, Walk, WalkWords};
use lent::table::Table;
use libraries::Libraries;
use library::types::LibraryId;

// The next task of a walk: a need of the library that was entered last is looked at, or it is left.
fn go_on<'t, L: Libraries<'t>>(
    libraries: &L,
    walk: &mut Walk,
    visit: Visit,
) -> Result<(), MissingLibrary>
    requires limit { limit walk.old.seen ≡ length (L.libs libraries.now) }
    requires last { entered_in walk.old.entered ≡ take (walk.old.entered.len - 1) (entered_in walk.old.entered) ++ visit_of visit ∷ [] }
    ensures limit { limit walk.new.seen ≡ limit walk.old.seen }
    ensures stands { MatchResult result (λ _. (x : Name) → Stands (L.libs libraries.now) x (entered_in walk.old.entered) (numbers walk.old.seen) (column walk.old.left) → Stands (L.libs libraries.now) x (entered_in walk.new.entered) (numbers walk.new.seen) (column walk.new.left)) (IsMissing (L.libs libraries.now)) }
    ensures less { OnOk result (work (L.libs libraries.now) (entered_in walk.new.entered) (numbers walk.new.seen) < work (L.libs libraries.now) (entered_in walk.old.entered) (numbers walk.old.seen)) }
{
    if visit.looked >= count_needs(libraries, visit.library) {
        walk.leave(visit.library);
        return Ok(());
    }
    let Some(needed) = need_number(libraries, visit.library, visit.looked) else {
        return Err(MissingLibrary {
            library: visit.library,
            need: visit.looked,
        });
    };
    walk.look(visit);
    walk.enter(needed);
    Ok(())
}

// The order in which a library and all that it needs are initialised: what is needed before what needs it, by its rows.
pub fn order<'t, 'a, L: Libraries<'t>>(
    libraries: &L,
    first: LibraryId,
    words: WalkWords<'a>,
) -> Result<Table<'a, 1>, NotGathered>
    ensures { MatchResult result (λ t. (x : Name) → number_of (L.libs libraries.now) x ≡ Some first.0 → init_order (L.libs libraries.now) x ≡ map (name_at (L.libs libraries.now)) (column t)) (Unordered (L.libs libraries.now) first.0 (walk_room words.entry)) }
{
    let count = libraries.len();
    if first.0 >= count {
        return Err(NotGathered::NoSuchLibrary);
    }
    if words.room() < count {
        return Err(NotGathered::TooFewWords);
    }
    let mut walk = Walk::new(words, count);
    walk.enter(first);
    while let Some(visit) = walk.last() {
        go_on(libraries, &mut walk, visit)?;
    }
    let Walk { left, .. } = walk;
    Ok(left)
}
