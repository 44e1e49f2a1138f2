// Modules and groups looked up by number in columns, of which none need be as long as the counts say: a word that isn't there is 0.
ghost use Rattle.std.specs.Prelude.{◌≡◌, nat_lt, Some};
ghost use Rattle.base.specs.Choices.{guard};
ghost use Rattle.linkage.specs.Columns.{module_row, group_row};

use crate::columns::{Columns, Counts};
use crate::types::{Group, Load, Module};
use library::types::LibraryId;
pub use rows::fields::word;

// Module i.
pub fn module_at(tables: &Columns, counts: &Counts, i: usize) -> Option<Module>
    ensures { result ≡ guard (nat_lt i counts.now.modules) (Some (module_row tables.now i)) }
{
    if i >= counts.modules {
        return None;
    }
    let library = word(tables.modules.library, i) as usize;
    Some(Module {
        load: Load {
            library: LibraryId(library),
            group: word(tables.modules.group, i) as usize,
            base: word(tables.modules.base, i) as usize,
        },
        live: word(tables.loaded, library) == i as u64 + 1,
    })
}

// Group i.
pub fn group_at(tables: &Columns, counts: &Counts, i: usize) -> Option<Group>
    ensures { result ≡ guard (nat_lt i counts.now.groups) (Some (group_row tables.now i)) }
{
    if i >= counts.groups {
        return None;
    }
    let state = word(tables.groups.state, i);
    Some(Group {
        first: word(tables.groups.first, i) as usize,
        end: word(tables.groups.end, i) as usize,
        opened: state % 2 == 1,
        global: state > 1,
    })
}
