// What the programs read and count: key lists, and how many answers are as they should be.
#![tactic(auto)]

pub mod list;
pub mod tally;
