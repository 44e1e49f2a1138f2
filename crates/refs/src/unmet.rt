ghost use Rattle.std.specs.Prelude.{◌≡◌, true, length, is_none, slice_get};
ghost use Rattle.std.specs.List.{list_all};
ghost use Rattle.base.specs.Choices.{opt};
ghost use Rattle.links.specs.Load.{ref_met};
ghost use Rattle.linkage.specs.Tables.{library_at, links_of};
ghost use Rattle.refs.specs.Unmet.{cells_at, first_unmet};

use crate::cells::is_met;
use libraries::Libraries;
use library::types::LibraryId;
use linkage::counts::count_cells;
use linkage::tables::Tables;

// The first of a library's cells whose ref must be met for module `me` and isn't.
fn unmet_in<'t, L: Libraries<'t>>(
    libraries: &L,
    tables: &Tables,
    me: usize,
    library: LibraryId,
) -> Option<usize>
    ensures { result ≡ first_unmet (links_of (L.libs libraries.now) tables.now) me (library_at (L.libs libraries.now) library.0).cells }
{
    for i in 0..count_cells(libraries, library) {
        let cell = libraries.cell(library, i)?;
        if !is_met(libraries, tables, me, cell) {
            return Some(i);
        }
    }
    None
}

// The first cell of module `me` whose ref must be met and isn't; none where there is no such cell, or no such module.
// No `CellNo`: `Libraries` sets no bound to how many cells a library has.
pub fn unmet<'t, L: Libraries<'t>>(libraries: &L, tables: &Tables, me: usize) -> Option<usize>
    ensures first { result ≡ first_unmet (links_of (L.libs libraries.now) tables.now) me (cells_at (links_of (L.libs libraries.now) tables.now) me) }
    ensures met { is_none result ≡ opt (slice_get (links_of (L.libs libraries.now) tables.now).modules me) true (λ x. list_all (ref_met (links_of (L.libs libraries.now) tables.now) me) x.lib.cells) }
{
    let module = tables.module(me)?;
    unmet_in(libraries, tables, me, module.load.library)
}
