// A batch of classes as a table of nodes: the 48 kinds of node, and the check of a batch's shape.
#![tactic(auto)]

pub mod kinds;
mod open;
pub mod shape;
pub mod view;
