// A line of a library, read into typed parts.
#![tactic(auto)]

mod cells;
pub mod items;
