ghost use Rattle.std.specs.Prelude.{[]};

use crate::leaving::leaving;
use crate::refusals::TooFewWords;
use crate::staying::retained;
use crate::unloading::unload;
use lent::refusals::Full;
use lent::table::Table;
use libraries::{Libraries, Sizes};
use library::types::{Cell, CellNo, Definition, LibraryId};
use linkage::tables::Tables;

// A text without libraries: modules then have no cells.
struct NoLibraries;

impl<'t> Libraries<'t> for NoLibraries {
    ghost libs = { λ _. [] };

    fn len(&self) -> usize {
        0
    }

    fn find(&self, _name: &[u8]) -> Option<LibraryId> {
        None
    }

    fn name(&self, _id: LibraryId) -> Option<&'t [u8]> {
        None
    }

    fn inward(&self, _id: LibraryId) -> Option<bool> {
        None
    }

    fn sizes(&self, _id: LibraryId) -> Option<Sizes> {
        None
    }

    fn need(&self, _id: LibraryId, _j: usize) -> Option<&'t [u8]> {
        None
    }

    fn definition(&self, _id: LibraryId, _j: usize) -> Option<Definition<&'t [u8]>> {
        None
    }

    fn initializer(&self, _id: LibraryId, _j: usize) -> Option<CellNo> {
        None
    }

    fn finalizer(&self, _id: LibraryId, _j: usize) -> Option<CellNo> {
        None
    }

    fn cell(&self, _id: LibraryId, _j: usize) -> Option<Cell<&'t [u8]>> {
        None
    }
}

// Two modules, each of a group of its own.
#[test]
fn closed_group_goes(rt: HostRuntime) {
    let mut modules = [0, 0, 0, 1, 1, 0];
    let mut groups = [0, 1, 1, 1, 2, 1];
    let mut bindings = [];
    let mut members = [0, 1];
    let mut order = [1, 0];
    let mut loaded = [1, 2];
    let mut tables = Tables {
        modules: Table {
            words: &mut modules,
            len: 2,
        },
        groups: Table {
            words: &mut groups,
            len: 2,
        },
        bindings: Table::new(&mut bindings),
        members: Table {
            words: &mut members,
            len: 2,
        },
        order: Table {
            words: &mut order,
            len: 2,
        },
        loaded: &mut loaded,
        used: 0,
    };
    tables.close_group(0);
    let mut words = [0; 2];
    let mut marks = [0; 2];
    let mut left = [0; 2];
    let refused = match retained(&NoLibraries, &tables, &mut [0], &mut [0, 0]) {
        Ok(_) => false,
        Err(TooFewWords) => true,
    };
    if let Ok(stays) = retained(&NoLibraries, &tables, &mut words, &mut marks) {
        let full = match leaving(&tables, &stays, &mut []) {
            Ok(_) => false,
            Err(Full) => true,
        };
        if let Ok(going) = leaving(&tables, &stays, &mut left) {
            let first = going.get(0, 0);
            unload(&mut tables, &stays, &going);
            let live = [0, 1].map(|id| tables.module(id).is_some_and(|module| module.live));
            assert!(rt;
                refused && full && going.len == 1 && first == Some(0) && live == [false, true]
            );
            return;
        }
    }
    assert!(rt; false);
}
