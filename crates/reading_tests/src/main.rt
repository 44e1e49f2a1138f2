// Reads texts that are right and texts that are wrong, and prints what comes of each.
#![tactic(auto)]

mod made;
mod verdict;

use made::{numbered, repeated, unescaped};
use std::{fs, io};
use verdict::{find_all, show, show_in};

// Each line of the file stands in a library that has two cells behind it.
fn lines(rt: &HostRuntime) -> io::Result<()> {
    let table = fs::read_to_string(rt, "lines")?;
    for line in table.lines() {
        let mut text = Vec::from_slice(rt.alloc(), b"lib l\n")?;
        text.extend_from_slice(line.as_bytes())?;
        text.extend_from_slice(b"\nword 0\nword 0\n")?;
        show(rt, line, &text)?;
    }
    Ok(())
}

// Each line of the file is a text: \n, \t, \r, \0 and \f stand for bytes 10, 9, 13, 0 and 255.
fn texts(rt: &HostRuntime) -> io::Result<()> {
    let table = fs::read_to_string(rt, "texts")?;
    for line in table.lines() {
        show(rt, line, &unescaped(rt.alloc(), line)?)?;
    }
    Ok(())
}

fn long_texts(rt: &HostRuntime) -> io::Result<()> {
    let heap = rt.alloc();
    show(
        rt,
        "10,000 zeros, then 7",
        &repeated(heap, "lib a\nword ", "0", 10000, "7")?,
    )?;
    show(
        rt,
        "10,000 nines",
        &repeated(heap, "lib a\nword ", "9", 10000, "\n")?,
    )?;
    show(
        rt,
        "10,000 zeros for a register",
        &repeated(heap, "lib a\nout ", "0", 10000, "\n")?,
    )?;
    show(
        rt,
        "65,535 cells",
        &repeated(heap, "lib a\n", "word 1\n", 65535, "")?,
    )?;
    show(
        rt,
        "65,535 cells, and again",
        &repeated(heap, "lib a\n", "ret\n", 65535, "lib b\nret\n")?,
    )?;
    show(
        rt,
        "65,536 cells",
        &repeated(heap, "lib a\n", "word 1\n", 65536, "")?,
    )?;
    show(
        rt,
        "a name of 10,000 bytes",
        &repeated(heap, "lib ", "x", 10000, "\nneeds y\n")?,
    )?;
    show(
        rt,
        "10,000 blanks",
        &repeated(heap, "lib", " ", 10000, "y")?,
    )?;
    show(
        rt,
        "10,000 blank lines",
        &repeated(heap, "lib a", "\n", 10000, "foo")?,
    )?;
    show(
        rt,
        "10,000 words",
        &repeated(heap, "lib a\nneeds", " x", 10000, "")?,
    )
}

fn many_libraries(rt: &HostRuntime) -> io::Result<()> {
    let heap = rt.alloc();
    show(rt, "1,000 libraries", &numbered(heap, 1000, "")?)?;
    show(
        rt,
        "the first of 1,000 again",
        &numbered(heap, 1000, "lib l0\n")?,
    )?;
    show(
        rt,
        "the last of 1,000 again",
        &numbered(heap, 1000, "lib l999\n")?,
    )?;
    find_all(rt, &numbered(heap, 1000, "")?, 1000)
}

fn few_words(rt: &HostRuntime) -> io::Result<()> {
    show_in(rt, "no text, 30 words", b"", 30)?;
    show_in(rt, "no text, 31 words", b"", 31)?;
    show_in(rt, "6 bytes, no words", b"lib a\n", 0)?;
    show_in(rt, "6 bytes, 123 words", b"lib a\n", 123)?;
    show_in(rt, "6 bytes, 124 words", b"lib a\n", 124)?;
    show_in(rt, "a wrong line, 30 words", b"foo", 30)
}

fn main(rt: HostRuntime) -> io::Result<()> {
    lines(&rt)?;
    texts(&rt)?;
    long_texts(&rt)?;
    many_libraries(&rt)?;
    few_words(&rt)
}
