// What a symbol means to a module, and a name in a group, looked up in lent words.
#![tactic(auto)]

mod definitions;
pub mod resolve;
mod search;
