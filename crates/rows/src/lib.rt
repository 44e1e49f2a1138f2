// Rows of words that stand for parts of libraries, written and read back.
#![tactic(auto)]

mod cells;
pub mod fields;
pub mod row;
