// What a library is, as types; the text that libraries are written in; what can be wrong with it.
#![tactic(auto)]

ghost use Rattle.library.specs.Distinct.{ReadsOnce};
ghost use Rattle.library.specs.Fine.{ReadsFine};

pub mod faults;
pub mod types;

// Registers, numbers and cells of the libraries that a text gives are in range.
pub fn reads_fine() -> u8
    ensures { ReadsFine }
{
    0
}

// No two libraries of a text have the same name.
pub fn reads_once() -> u8
    ensures { ReadsOnce }
{
    0
}
