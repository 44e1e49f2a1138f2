// Tables, queues and indexes in words that the caller lends.
#![tactic(auto)]

pub mod index;
pub mod once;
pub mod queue;
pub mod refusals;
pub mod table;
#[cfg(test)]
mod tests;
