// Lists the libraries of a text: what each needs and defines, and how many cells, initializers and finalizers it has.
#![tactic(auto)]

mod failure;
mod listing;
mod sources;

use catalog::catalog::Catalog;
use failure::Failure;
use libraries::Libraries;
use library::faults::{BadLine, ReadFault};
use library::types::LibraryId;
use listing::list;
use sources::{Sources, locate};
use std::alloc::AllocError;
use std::io::Write;
use std::process::ExitCode;
use std::{env, fs, io};

const USAGE: &str = "usage: libs FILE..

Lists the libraries of the files, in order: what each needs and defines, and how many cells,
initializers and finalizers it has. The files are read as one text, in the order given; the end of
a file ends its last line. A line that is wrong is told as FILE:LINE.
";

fn asks_help(words: &[String]) -> bool {
    words
        .iter()
        .any(|word| word.as_str() == "--help" || word.as_str() == "-h")
}

fn gather(rt: &HostRuntime, files: &[String]) -> Result<Sources, Failure> {
    let mut sources = Sources::new(rt.alloc());
    for file in files {
        match fs::read(rt, file.as_str()) {
            Ok(bytes) => sources.add(&bytes)?,
            Err(error) => return Err(Failure::Unreadable(file.clone()?, error)),
        }
    }
    Ok(sources)
}

fn blame(files: &[String], counts: &[usize], bad: BadLine) -> Result<Failure, AllocError> {
    let Some(place) = locate(counts, bad.line) else {
        return Ok(Failure::TooLong);
    };
    match files.get(place.file) {
        Some(file) => Ok(Failure::Line(file.clone()?, place.line, bad.fault)),
        None => Ok(Failure::TooLong),
    }
}

// A page for each library, written at once.
fn show(rt: &HostRuntime, catalog: &Catalog) -> Result<(), Failure> {
    for id in (0..catalog.len()).map(LibraryId) {
        let mut page = Vec::new(rt.alloc());
        list(&mut page, catalog, id)?;
        rt.stdout().write_all(&page)?;
    }
    Ok(())
}

fn run(rt: &HostRuntime) -> Result<(), Failure> {
    let files: Vec<String> = env::args(rt)?.skip(1).collect(rt.alloc())?;
    if files.is_empty() {
        return Err(Failure::NoFile);
    }
    if asks_help(&files) {
        rt.print(USAGE)?;
        return Ok(());
    }
    let sources = gather(rt, &files)?;
    let words = sources.text.len().saturating_mul(16).saturating_add(1024);
    let mut work = vec![in rt.alloc(); 0u64; words]?;
    match Catalog::read(&sources.text, &mut work) {
        Ok(catalog) => show(rt, &catalog),
        Err(ReadFault::Line(bad)) => Err(blame(&files, &sources.counts, bad)?),
        Err(ReadFault::TooFewWords) => Err(Failure::TooLong),
    }
}

fn main(rt: HostRuntime) -> io::Result<ExitCode> {
    match run(&rt) {
        Ok(()) => Ok(ExitCode::SUCCESS),
        Err(failure) => {
            eprintln!(rt; "{failure}")?;
            Ok(ExitCode::FAILURE)
        }
    }
}
