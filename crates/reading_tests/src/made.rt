use std::alloc::{AllocError, Global};

// The byte that an escaped letter stands for.
fn meant(letter: u8) -> u8 {
    match letter {
        b'n' => 10,
        b't' => 9,
        b'r' => 13,
        b'0' => 0,
        b'f' => 255,
        other => other,
    }
}

pub fn unescaped(heap: Global, line: &str) -> Result<Vec<u8>, AllocError> {
    let mut bytes = Vec::new(heap);
    let mut letters = line.bytes();
    while let Some(letter) = letters.next() {
        if letter != b'\\' {
            bytes.push(letter)?;
        } else if let Some(escaped) = letters.next() {
            bytes.push(meant(escaped))?;
        }
    }
    Ok(bytes)
}

// A head, n times a piece, and a tail.
pub fn repeated(
    heap: Global,
    head: &str,
    piece: &str,
    n: u32,
    tail: &str,
) -> Result<Vec<u8>, AllocError> {
    let mut bytes = Vec::from_slice(heap, head.as_bytes())?;
    for _ in 0..n {
        bytes.extend_from_slice(piece.as_bytes())?;
    }
    bytes.extend_from_slice(tail.as_bytes())?;
    Ok(bytes)
}

// The name of library i.
pub fn name(heap: Global, i: u32) -> Result<String, AllocError> {
    format!(in heap; "l{i}")
}

// Libraries l0, l1 and so on, with a cell each, and a tail.
pub fn numbered(heap: Global, n: u32, tail: &str) -> Result<Vec<u8>, AllocError> {
    let mut bytes = Vec::new(heap);
    for i in 0..n {
        bytes.extend_from_slice(b"lib ")?;
        bytes.extend_from_slice(name(heap, i)?.as_bytes())?;
        bytes.extend_from_slice(b"\nret\n")?;
    }
    bytes.extend_from_slice(tail.as_bytes())?;
    Ok(bytes)
}
