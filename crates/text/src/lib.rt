// Parts of a byte text: lines, words and numbers.
#![tactic(auto)]

pub mod lines;
pub mod number;
pub mod reader;
pub mod words;
