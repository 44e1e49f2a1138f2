// The libraries of a text, in lent words.
#![tactic(auto)]

pub mod catalog;
mod count;
