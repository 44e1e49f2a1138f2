ghost use Rattle.std.specs.Prelude.{◌≡◌, ◌+◌, ◌^◌, ◌<◌, [], ◌∷◌, ◌++◌, length, eqb, OnOk};
ghost use Rattle.std.specs.List.{count_by};
ghost use Rattle.text.specs.Words.{lines_of};
ghost use Rattle.libs.specs.Places.{place, SameLine};

use std::alloc::{AllocError, Global};

// Files as one text, each with a byte 10 behind it, and how many lines each has.
#[derive(Drop)]
pub struct Sources {
    pub text: Vec<u8>,
    pub counts: Vec<usize>,
}

// A line of a file, counted from 1.
#[derive(Clone, Copy, PartialEq, Eq, Debug)]
pub struct Place {
    pub file: usize,
    pub line: usize,
}

fn line_ends(file: &[u8]) -> usize
    ensures { result ≡ count_by (λ byte. eqb byte 10) file.now }
{
    file.iter().filter(|byte| **byte == b'\n').count()
}

// How many lines a file has.
fn lines(file: &[u8]) -> usize
    requires { length file.now + 1 < 2 ^ 64 }
    ensures { result ≡ length (lines_of file.now) }
{
    line_ends(file) + 1
}

impl Sources {
    pub fn new(heap: Global) -> Sources
        ensures text { result.text.items ≡ [] }
        ensures counts { result.counts.items ≡ [] }
    {
        Sources {
            text: Vec::new(heap),
            counts: Vec::new(heap),
        }
    }

    // Adds a file to the text.
    pub fn add(&mut self, file: &[u8]) -> Result<(), AllocError>
        ensures text { OnOk result (self.new.text.items ≡ self.old.text.items ++ (file.now ++ (10 ∷ []))) }
        ensures counts { OnOk result (self.new.counts.items ≡ self.old.counts.items ++ (length (lines_of file.now) ∷ [])) }
    {
        self.text.extend_from_slice(file)?;
        self.text.push(b'\n')?;
        self.counts.push(lines(file))?;
        Ok(())
    }
}

// The file and the line within it of a line of the whole text.
pub fn locate(counts: &[usize], line: usize) -> Option<Place>
    ensures { result ≡ place 0 counts.now line }
{
    let mut rest = line;
    for (file, count) in counts.iter().enumerate() {
        if rest <= *count {
            return Some(Place { file, line: rest });
        }
        rest -= count;
    }
    None
}

// A line of the whole text is the line that stands at its place.
pub fn same_line() -> u8
    ensures { SameLine }
{
    0
}
