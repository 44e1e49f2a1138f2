ghost use Rattle.std.specs.Prelude.{◌≡◌, None, cond};
ghost use Rattle.std.specs.Option.{option_map};
ghost use Rattle.links.specs.Scope.{global_members, members_of};
ghost use Rattle.linkage.specs.Tables.{library_at, group_of};
ghost use Rattle.linkage.specs.Views.{place_of};
ghost use Rattle.scopes.specs.Looks.{linked, seen, looked, shared};

use crate::definitions::defined;
use libraries::Libraries;
use library::types::{LibraryId, Symbol};
use linkage::tables::Tables;
use linkage::types::{Group, Place};

// A symbol that module `by` asks for, and where it is looked for.
#[derive(Drop)]
pub(crate) struct Search<'s, L> {
    pub(crate) libraries: &'s L,
    pub(crate) tables: &'s Tables<'s>,
    pub(crate) by: usize,
    pub(crate) symbol: Symbol<&'s [u8]>,
}

impl<'s, 't, L: Libraries<'t>> Search<'s, L> {
    // What a module has for the symbol.
    fn in_module(&self, number: usize) -> Option<Place>
        ensures { option_map place_of result ≡ seen (L.libs self.now.libraries.now) self.now number }
    {
        let module = self.tables.live_module(number)?;
        let mine = self.by == number;
        let cell = defined(self.libraries, module.load.library, mine, self.symbol)?;
        Some(Place {
            module: number,
            cell: cell.0 as usize,
        })
    }

    // What the module that asks has itself, where its library is inward.
    pub(crate) fn in_itself(&self, library: LibraryId) -> Option<Place>
        ensures { option_map place_of result ≡ cond (library_at (L.libs self.now.libraries.now) library.0).inward (seen (L.libs self.now.libraries.now) self.now self.now.by) None }
    {
        if self.libraries.inward(library).unwrap_or(false) {
            self.in_module(self.by)
        } else {
            None
        }
    }

    // What the first of a group's members that has something has.
    pub(crate) fn in_members(&self, group: Group) -> Option<Place>
        ensures { option_map place_of result ≡ looked (L.libs self.now.libraries.now) self.now (group_of self.now.tables.now group).members }
    {
        for row in group.first..group.end {
            let place = self.in_module(self.tables.member(row)?);
            if place.is_some() {
                return place;
            }
        }
        None
    }

    // The same of the members of group n.
    pub(crate) fn in_group(&self, n: usize) -> Option<Place>
        ensures { option_map place_of result ≡ looked (L.libs self.now.libraries.now) self.now (members_of (linked (L.libs self.now.libraries.now) self.now).groups n) }
    {
        self.in_members(self.tables.group(n)?)
    }

    // The same of a group's members, where it is open and global.
    fn in_shared(&self, group: Group) -> Option<Place>
        ensures { option_map place_of result ≡ looked (L.libs self.now.libraries.now) self.now (shared (group_of self.now.tables.now group)) }
    {
        if group.opened && group.global {
            self.in_members(group)
        } else {
            None
        }
    }

    // The same of all groups that are open and global, in the order of opening.
    pub(crate) fn in_globals(&self) -> Option<Place>
        ensures { option_map place_of result ≡ looked (L.libs self.now.libraries.now) self.now (global_members (linked (L.libs self.now.libraries.now) self.now).groups) }
    {
        for n in 0..self.tables.groups.len {
            let place = self.in_shared(self.tables.group(n)?);
            if place.is_some() {
                return place;
            }
        }
        None
    }
}
