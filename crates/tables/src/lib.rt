// Libraries and their parts, in tables of lent words.
#![tactic(auto)]

mod add;
pub mod draft;
mod reach;
pub mod tables;
