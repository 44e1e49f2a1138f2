// What stays and what goes when a group is closed: found and done in lent words.
#![tactic(auto)]

pub mod leaving;
pub mod refusals;
pub mod staying;
#[cfg(test)]
mod tests;
pub mod unloading;
