// Libraries loaded into lent words: modules put behind those that there are.
#![tactic(auto)]

pub mod adding;
#[cfg(test)]
mod tests;
