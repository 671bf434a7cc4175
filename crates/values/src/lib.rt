// Values, and what a run computes from them.
#![tactic(auto)]

pub mod cases;
pub mod casts;
mod comparisons;
mod floats;
mod ints;
pub mod operators;
mod pairs;
#[cfg(test)]
mod tests;
pub mod types;
pub mod value;
