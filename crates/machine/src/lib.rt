// A processor in lent words: memory, registers, what it returns to, what was pushed, input, and a log of what was shown.
#![tactic(auto)]

mod exec;
mod input;
mod log;
mod machine;
mod registers;
mod stack;
mod steps;

pub use log::Shown;
pub use machine::Machine;
