use crate::made::name;
use catalog::catalog::Catalog;
use libraries::Libraries;
use library::faults::{LineFault, ReadFault};
use library::types::{Cell, LibraryId};
use std::io;

// The names that the stored output has, which are shorter than the messages.
fn fault_name(fault: LineFault) -> &'static str {
    match fault {
        LineFault::UnknownKeyword => "unknown keyword",
        LineFault::OutsideLibrary => "outside a library",
        LineFault::MissingWord => "missing word",
        LineFault::SurplusWord => "surplus word",
        LineFault::NotRegister => "not a register",
        LineFault::NotCell => "not a cell",
        LineFault::NotNumber => "not a number",
        LineFault::NotChoice => "not a choice",
        LineFault::DuplicateLibrary => "duplicate library",
        LineFault::TooManyCells => "too many cells",
        LineFault::NoSuchCell => "no such cell",
    }
}

// How many parts a text has, and the sum of its words.
#[derive(Clone, Copy)]
struct Tally {
    parts: usize,
    cells: usize,
    sum: u64,
}

fn words_of(catalog: &Catalog, id: LibraryId, cells: usize) -> u64 {
    (0..cells)
        .filter_map(|j| match catalog.cell(id, j)? {
            Cell::Number(n) => Some(u64::from(n)),
            _ => None,
        })
        .fold(0u64, |sum, n| sum.saturating_add(n))
}

fn count(catalog: &Catalog) -> Tally {
    let mut tally = Tally {
        parts: 0,
        cells: 0,
        sum: 0,
    };
    for id in (0..catalog.len()).map(LibraryId) {
        if let Some(sizes) = catalog.sizes(id) {
            let calls = sizes.initializers.saturating_add(sizes.finalizers);
            let symbols = sizes.needs.saturating_add(sizes.definitions);
            tally = Tally {
                parts: tally.parts.saturating_add(calls).saturating_add(symbols),
                cells: tally.cells.saturating_add(sizes.cells),
                sum: tally.sum.saturating_add(words_of(catalog, id, sizes.cells)),
            };
        }
    }
    tally
}

// What comes of a text in so many lent words.
pub fn show_in(rt: &HostRuntime, label: &str, text: &[u8], words: usize) -> io::Result<()> {
    let mut work = vec![in rt.alloc(); 0u64; words]?;
    let (catalog, fault) = Catalog::read_or_empty(text, &mut work);
    let libraries = catalog.len();
    match fault {
        None => {
            let Tally { parts, cells, sum } = count(&catalog);
            println!(rt; "{label}: ok libraries={libraries} parts={parts} cells={cells} sum={sum}")
        }
        Some(ReadFault::Line(bad)) => {
            let line = bad.line;
            let fault = fault_name(bad.fault);
            println!(rt; "{label}: line {line} {fault}, libraries={libraries}")
        }
        Some(ReadFault::TooFewWords) => println!(rt;
            "{label}: too few words, libraries={libraries}"
        ),
    }
}

// As many lent words as always suffice for a text.
fn enough(text: &[u8]) -> usize {
    text.len().saturating_mul(16).saturating_add(1024)
}

// What comes of a text in as many.
pub fn show(rt: &HostRuntime, label: &str, text: &[u8]) -> io::Result<()> {
    show_in(rt, label, text, enough(text))
}

// Looks for libraries by name: for each of the first n, and for names that none has.
pub fn find_all(rt: &HostRuntime, text: &[u8], n: u32) -> io::Result<()> {
    let mut work = vec![in rt.alloc(); 0u64; enough(text)]?;
    let Ok(catalog) = Catalog::read(text, &mut work) else {
        return Err(io::Error::from(io::ErrorKind::InvalidData));
    };
    let mut right = 0u32;
    for i in 0..n {
        if catalog.find(name(rt.alloc(), i)?.as_bytes()) == Some(LibraryId(i as usize)) {
            right = right.saturating_add(1);
        }
    }
    let after = catalog.find(name(rt.alloc(), n)?.as_bytes()).is_none();
    let front = catalog.find(b"l").is_none();
    let empty = catalog.find(b"").is_none();
    println!(rt; "find: {right} of {n}, none of the others: {after} {front} {empty}")
}
