ghost use Rattle.std.specs.Prelude.{◌≡◌};
ghost use Rattle.std.specs.Option.{option_map};
ghost use Rattle.library.specs.Views.{cell_of};
ghost use Rattle.links.specs.Load.{ref_met, ref_target};
ghost use Rattle.linkage.specs.Tables.{links_of};
ghost use Rattle.linkage.specs.Views.{place_of};

use libraries::Libraries;
use library::types::Cell;
use linkage::tables::Tables;
use linkage::types::Place;
use scopes::resolve::resolve;

// Whether what a cell of module `me` must find is there.
pub fn is_met<'t, L: Libraries<'t>>(
    libraries: &L,
    tables: &Tables,
    me: usize,
    cell: Cell<&[u8]>,
) -> bool
    ensures { result ≡ ref_met (links_of (L.libs libraries.now) tables.now) me (cell_of (λ x. x.now) cell.entry) }
{
    match cell {
        Cell::Ref(symbol, _, must) => !must || resolve(libraries, tables, me, symbol).is_some(),
        Cell::Number(_) | Cell::At(_) | Cell::Slot(_) | Cell::Name(_) | Cell::Code(_) => true,
    }
}

// What a cell of module `me` is bound to when the module comes in: a ref to the definition that its symbol means, all else to
// nothing yet.
pub fn target<'t, L: Libraries<'t>>(
    libraries: &L,
    tables: &Tables,
    me: usize,
    cell: Cell<&[u8]>,
) -> Option<Place>
    ensures { option_map place_of result ≡ ref_target (links_of (L.libs libraries.now) tables.now) me (cell_of (λ x. x.now) cell.entry) }
{
    match cell {
        Cell::Ref(symbol, _, _) => resolve(libraries, tables, me, symbol),
        Cell::Number(_) | Cell::At(_) | Cell::Slot(_) | Cell::Name(_) | Cell::Code(_) => None,
    }
}
