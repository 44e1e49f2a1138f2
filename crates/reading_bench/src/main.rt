// Makes texts of libraries and reads them. With sizes as arguments, prints how long it takes to read a byte.
#![tactic(auto)]

use catalog::catalog::Catalog;
use libraries::Libraries;
use library::types::LibraryId;
use std::alloc::{AllocError, Global};
use std::time::Instant;
use std::{env, io};

// What a text came to.
#[derive(Clone, Copy)]
struct Found {
    libraries: usize,
    cells: usize,
}

fn library(heap: Global, i: u32) -> Result<String, AllocError> {
    let p = i / 2;
    format!(in heap;
        "lib l{i}\nneeds l{p}\ndef f{i} 1 0 all\ninit 0\nset 0 {i}\nown 1 7\nget 2 1 0\nadd 0 1 2\ncall 6\nret\nslot f{p} 1\nword {i}\nref f{p} - 3 may\nname l{p}\n"
    )
}

// A text of at least so many bytes.
fn text_of(heap: Global, size: usize) -> Result<Vec<u8>, AllocError> {
    let mut text = Vec::new(heap);
    // A range, so that the loop ends by itself whatever a library's text is.
    for i in 0..u32::MAX {
        if text.len() >= size {
            break;
        }
        text.extend_from_slice(library(heap, i)?.as_bytes())?;
    }
    Ok(text)
}

fn read(text: &[u8], work: &mut [u64]) -> Option<Found> {
    let catalog = Catalog::read(text, work).ok()?;
    let mut cells = 0usize;
    for id in (0..catalog.len()).map(LibraryId) {
        cells = cells.saturating_add(catalog.sizes(id)?.cells);
    }
    Some(Found {
        libraries: catalog.len(),
        cells,
    })
}

// The shortest of three times, in seconds.
fn time(rt: &HostRuntime, text: &[u8], work: &mut [u64]) -> io::Result<f64> {
    let mut best = 1e9;
    for _ in 0..3 {
        let start = Instant::now(rt)?;
        let catalog = Catalog::read(text, work);
        let took = start.elapsed(rt)?.as_secs_f64();
        if catalog.is_ok() && took < best {
            best = took;
        }
    }
    Ok(best)
}

fn measure(rt: &HostRuntime, size: usize, timed: bool) -> io::Result<()> {
    let text = text_of(rt.alloc(), size)?;
    let bytes = text.len();
    let mut work = vec![in rt.alloc(); 0u64; bytes.saturating_mul(16).saturating_add(1024)]?;
    let Some(Found { libraries, cells }) = read(&text, &mut work) else {
        return Err(io::Error::from(io::ErrorKind::InvalidData));
    };
    print!(rt; "bytes={bytes} libraries={libraries} cells={cells}")?;
    if timed {
        let each = time(rt, &text, &mut work)? * 1e9 / std::num::nearest_u64_to_f64(bytes as u64);
        print!(rt; " ns-per-byte={each:.2}")?;
    }
    println!(rt; "")
}

fn main(rt: HostRuntime) -> io::Result<()> {
    let sizes: Vec<String> = env::args(&rt)?.skip(1).collect(rt.alloc())?;
    if sizes.is_empty() {
        return measure(&rt, 10000, false);
    }
    for size in &sizes {
        match size.parse::<usize>() {
            Ok(size) => measure(&rt, size, true)?,
            Err(_) => println!(rt; "usage: reading_bench SIZE..")?,
        }
    }
    Ok(())
}
