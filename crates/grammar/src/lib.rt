// The grammars of Deca, pass by pass, over a batch and the library that it is to join.
#![tactic(auto)]

pub mod declare;
pub mod fault;
mod fields;
mod members;
mod methods;
pub mod pass_one;
pub mod pass_two;
pub mod site;
