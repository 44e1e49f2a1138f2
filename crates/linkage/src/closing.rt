ghost use Rattle.std.specs.Prelude.{◌≡◌, List, [], slice_index_or};
ghost use Rattle.std.specs.Option.{option_map};
ghost use Rattle.lent.specs.Tables.{rows_in};
ghost use Rattle.library.specs.Library.{Library};
ghost use Rattle.links.specs.Close as close;
ghost use Rattle.linkage.specs.Rows.{binding_at};
ghost use Rattle.linkage.specs.Tables.{links_of};
ghost use Rattle.linkage.specs.Views.{place_of};

use crate::tables::Tables;
use crate::types::{Group, Place};
use rows::fields::word;
use rows::row::Row;

impl<'a> Tables<'a> {
    // Whether there is a group of this number that is open.
    pub fn is_open(&self, group: usize) -> bool
        ensures { (ls : List Library) → result ≡ close.is_open (links_of ls self.now) group }
    {
        self.group(group).is_some_and(|group| group.opened)
    }

    // The group is closed; nothing goes yet. A number that is no group's changes nothing.
    pub fn close_group(&mut self, group: usize)
        ensures { (ls : List Library) → links_of ls self.new ≡ close.close_group (links_of ls self.old) group }
    {
        let Some(open) = self.group(group) else {
            return;
        };
        let closed = Group {
            opened: false,
            ..open
        };
        // There is a row of that number.
        let _ = self.groups.set(group, &closed.encode());
    }

    // What the cell at a word of memory is bound to. By hand: nothing writes such a row yet.
    pub fn bound_at(&self, address: usize) -> Option<Place>
        ensures { option_map place_of result ≡ binding_at (slice_index_or (rows_in 2 self.now.bindings) address []) }
    {
        let row = self.bindings.row(address)?;
        Some(Place {
            module: word(row, 0).checked_sub(1)? as usize,
            cell: word(row, 1) as usize,
        })
    }
}
