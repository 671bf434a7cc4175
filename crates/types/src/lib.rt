// The types of Deca: classes and their super-classes, the relations on types, and the types that operators give.
#![tactic(auto)]

pub mod class;
pub mod hierarchy;
pub mod operators;
pub mod subtypes;
#[cfg(test)]
mod tests;
