// A record store with one record after another: all cells in one sequence, in the order of the records.
#![tactic(auto)]

pub mod held;
pub mod rows;
