// What the refs of a module that was just brought in ask for, looked up in lent words.
#![tactic(auto)]

pub mod cells;
pub mod unmet;
