use crate::adding::add_module;
use lent::refusals::Full;
use lent::table::Table;
use library::types::LibraryId;
use linkage::tables::Tables;
use linkage::types::Load;

// Room for one module, and words for two libraries.
#[test]
fn module_is_added(rt: HostRuntime) {
    let mut modules = [9; 5];
    let mut loaded = [0; 2];
    let mut tables = Tables {
        modules: Table::new(&mut modules),
        groups: Table::new(&mut []),
        bindings: Table::new(&mut []),
        members: Table::new(&mut []),
        order: Table::new(&mut []),
        loaded: &mut loaded,
        used: 0,
    };
    let added = [2, 1, 0].map(|library| {
        let load = Load {
            library: LibraryId(library),
            group: 0,
            base: 7,
        };
        add_module(&mut tables, load)
    });
    let live = tables.module(0).is_some_and(|module| module.live);
    assert!(rt; added == [Err(Full), Ok(0), Err(Full)] && live && loaded == [0, 1]);
}
