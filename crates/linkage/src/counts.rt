// How many parts a library has; none where there is no library of that number.
ghost use Rattle.std.specs.Prelude.{◌≡◌, length};
ghost use Rattle.linkage.specs.Tables.{library_at};

use libraries::Libraries;
use library::types::LibraryId;

pub fn count_definitions<'t, L: Libraries<'t>>(libraries: &L, library: LibraryId) -> usize
    ensures { result ≡ length (library_at (L.libs libraries.now) library.0).defs }
{
    libraries
        .sizes(library)
        .map_or(0, |sizes| sizes.definitions)
}

pub fn count_cells<'t, L: Libraries<'t>>(libraries: &L, library: LibraryId) -> usize
    ensures { result ≡ length (library_at (L.libs libraries.now) library.0).cells }
{
    libraries.sizes(library).map_or(0, |sizes| sizes.cells)
}
