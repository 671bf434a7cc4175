// A record store in memory of a fixed size: records and free cells are chains of slots, linked by index.
#![tactic(auto)]

mod chains;
mod operations;
pub mod slips;
mod slot;
