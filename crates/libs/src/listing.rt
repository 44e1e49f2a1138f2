use catalog::catalog::Catalog;
use libraries::Libraries;
use library::types::{Definition, LibraryId};
use std::io;
use std::io::Write;

// A line `def`.
fn list_definition<W: Write>(out: &mut W, definition: Definition<&[u8]>) -> io::Result<()> {
    let cell = definition.cell.0;
    let scope = if definition.inner { "inner" } else { "all" };
    out.write_all(b"def ")?;
    out.write_all(definition.symbol.name)?;
    out.write_all(b" ")?;
    out.write_all(definition.symbol.version)?;
    writeln!(out, " {cell} {scope}")
}

// The lines of a library; without such a library, none. Names are bytes, which may be no text.
pub fn list<W: Write>(out: &mut W, catalog: &Catalog, id: LibraryId) -> io::Result<()> {
    let (Some(name), Some(sizes)) = (catalog.name(id), catalog.sizes(id)) else {
        return Ok(());
    };
    out.write_all(b"lib ")?;
    out.write_all(name)?;
    out.write_all(b"\n")?;
    if catalog.inward(id) == Some(true) {
        out.write_all(b"inward\n")?;
    }
    for need in (0..sizes.needs).filter_map(|j| catalog.need(id, j)) {
        out.write_all(b"needs ")?;
        out.write_all(need)?;
        out.write_all(b"\n")?;
    }
    for definition in (0..sizes.definitions).filter_map(|j| catalog.definition(id, j)) {
        list_definition(out, definition)?;
    }
    let cells = sizes.cells;
    let inits = sizes.initializers;
    let finis = sizes.finalizers;
    writeln!(out, "cells {cells} inits {inits} finis {finis}")
}
