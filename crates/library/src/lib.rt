// The library of a workspace: the classes that were accepted, their members, their nodes, and the answers about them.
#![tactic(auto)]

pub mod attribute;
pub mod counts;
pub mod definition;
pub mod growth;
pub mod guard;
pub mod held;
pub mod lookup;
pub mod member;
pub mod nature;
pub mod questions;
pub mod signature;
