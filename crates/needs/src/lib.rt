// Which libraries belong together: a library with all that it needs, gathered in lent words.
#![tactic(auto)]

pub mod closure;
pub mod faults;
pub mod order;
mod walk;

pub use walk::WalkWords;
