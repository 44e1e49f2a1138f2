ghost use Rattle.std.specs.Prelude.{◌≡◌, slice_index, slice_get};
ghost use Rattle.std.specs.Option.{option_map};
ghost use Rattle.lent.specs.Tables.{rows_in};
ghost use Rattle.linkage.specs.Rows.{group_at};
ghost use Rattle.linkage.specs.Tables.{module_at, live_in, open_in, number_in};

use crate::types::{Group, Load, Module};
use lent::table::Table;
use rows::fields::word;
use rows::row::Row;

// Modules and groups, a row for each. Of each word of memory, what the cell there is bound to: one more than the module, 0 for nothing;
// and the cell of it. Members and order are numbers of modules. Loaded has for each library one more than its live module; a word
// that names a module of another library, or none that there is, says nothing. Used: how many words of memory are taken.
#[derive(Drop)]
pub struct Tables<'a> {
    pub modules: Table<'a, 3>,
    pub groups: Table<'a, 3>,
    pub bindings: Table<'a, 2>,
    pub members: Table<'a, 1>,
    pub order: Table<'a, 1>,
    pub loaded: &'a mut [u64],
    pub used: usize,
}

// The number in a row of numbers.
pub fn number(table: &Table<1>, row: usize) -> Option<usize>
    ensures { result ≡ option_map number_in (slice_get (rows_in 1 table.now) row) }
{
    let row = table.row(row)?;
    Some(word(row, 0) as usize)
}

impl<'a> Tables<'a> {
    // Module i.
    pub fn module(&self, i: usize) -> Option<Module>
        ensures { result ≡ option_map (module_at self.now i) (slice_get (rows_in 3 self.now.modules) i) }
    {
        let load = Load::decode(self.modules.row(i)?);
        Some(Module {
            load,
            live: word(self.loaded, load.library.0).checked_sub(1) == Some(i as u64),
        })
    }

    // Module i, if it is still there.
    pub fn live_module(&self, i: usize) -> Option<Module>
        ensures { result ≡ live_in self.now i }
    {
        self.module(i).filter(|module| module.live)
    }

    // Group i.
    pub fn group(&self, i: usize) -> Option<Group>
        ensures { result ≡ option_map group_at (slice_get (rows_in 3 self.now.groups) i) }
    {
        Some(Group::decode(self.groups.row(i)?))
    }

    // Group i, if it is open.
    pub fn open_group(&self, i: usize) -> Option<Group>
        ensures { result ≡ open_in self.now i }
    {
        self.group(i).filter(|group| group.opened)
    }

    // The module that row i of the members says.
    pub fn member(&self, i: usize) -> Option<usize>
        ensures { result ≡ option_map number_in (slice_get (rows_in 1 self.now.members) i) }
    {
        number(&self.members, i)
    }
}
