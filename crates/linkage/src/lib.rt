// What is loaded and bound, in lent words: modules and groups looked up by number.
#![tactic(auto)]

pub mod closing;
pub mod columns;
pub mod counts;
mod encoding;
pub mod loaded;
pub mod looks;
pub mod tables;
pub mod types;
