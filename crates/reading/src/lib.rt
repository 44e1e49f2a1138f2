// A text of libraries, read line by line into tables of lent words.
#![tactic(auto)]

mod line;
pub mod parts;
