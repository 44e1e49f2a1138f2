ghost use Rattle.std.specs.Prelude.{◌≡◌, length};
ghost use Rattle.std.specs.Option.{option_map};
ghost use Rattle.library.specs.Views.{cell_no, symbol_of, definition_of};
ghost use Rattle.links.specs.Symbols as symbols;
ghost use Rattle.linkage.specs.Tables.{library_at};

use libraries::Libraries;
use library::types::{CellNo, Definition, LibraryId, Symbol};
use linkage::counts::count_definitions;

// The version that is asked for where any will do.
pub(crate) const ANY_VERSION: &[u8] = b"-";

// Whether a definition is what a symbol asks for; mine: asked by the library itself.
fn matches(mine: bool, symbol: Symbol<&[u8]>, definition: Definition<&[u8]>) -> bool
    ensures { result ≡ symbols.matches mine (symbol_of (λ x. x.now) symbol.entry) (definition_of (λ x. x.now) definition.entry) }
{
    symbol.name == definition.symbol.name
        && (symbol.version == ANY_VERSION || symbol.version == definition.symbol.version)
        && (mine || !definition.inner)
}

// The cell of the first definition that a symbol asks for.
pub(crate) fn defined<'t, L: Libraries<'t>>(
    libraries: &L,
    library: LibraryId,
    mine: bool,
    symbol: Symbol<&[u8]>,
) -> Option<CellNo>
    ensures { option_map cell_no result ≡ symbols.find_def mine (library_at (L.libs libraries.now) library.0).defs (symbol_of (λ x. x.now) symbol.entry) }
{
    for i in 0..count_definitions(libraries, library) {
        let definition = libraries.definition(library, i)?;
        if matches(mine, symbol, definition) {
            return Some(definition.cell);
        }
    }
    None
}
