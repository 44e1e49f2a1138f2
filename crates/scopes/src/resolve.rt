ghost use Rattle.std.specs.Prelude.{◌≡◌};
ghost use Rattle.std.specs.Option.{option_map};
ghost use Rattle.library.specs.Views.{symbol_of};
ghost use Rattle.links.specs.Scope as scope;
ghost use Rattle.links.specs.Close.{found_in};
ghost use Rattle.linkage.specs.Tables.{links_of};
ghost use Rattle.linkage.specs.Views.{place_of};

use crate::definitions::ANY_VERSION;
use crate::search::Search;
use libraries::Libraries;
use library::types::Symbol;
use linkage::tables::Tables;
use linkage::types::Place;

// The place that a symbol means to module `me`. By early returns: a closure for `or_else` would hold the search, and has no name
// for its lifetimes.
pub fn resolve<'t, L: Libraries<'t>>(
    libraries: &L,
    tables: &Tables,
    me: usize,
    symbol: Symbol<&[u8]>,
) -> Option<Place>
    ensures { option_map place_of result ≡ scope.resolve (links_of (L.libs libraries.now) tables.now) me (symbol_of (λ x. x.now) symbol.entry) }
{
    let load = tables.module(me)?.load;
    let search = Search {
        libraries,
        tables,
        by: me,
        symbol,
    };
    let own = search.in_itself(load.library);
    if own.is_some() {
        return own;
    }
    let shared = search.in_globals();
    if shared.is_some() {
        return shared;
    }
    search.in_group(load.group)
}

// The place that a name has in an open group; nothing else.
pub fn find_in<'t, L: Libraries<'t>>(
    libraries: &L,
    tables: &Tables,
    group: usize,
    name: &[u8],
) -> Option<Place>
    ensures { option_map place_of result ≡ found_in (links_of (L.libs libraries.now) tables.now) group name.now }
{
    let found = tables.open_group(group)?;
    // No module has this number: what is inner to a library is not found.
    let search = Search {
        libraries,
        tables,
        by: tables.modules.len,
        symbol: Symbol {
            name,
            version: ANY_VERSION,
        },
    };
    search.in_members(found)
}
