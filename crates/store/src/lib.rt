// Record stores behind one interface: a store means a list of records, the records left and the cells left.
#![tactic(auto)]

pub mod head;
pub mod history;
pub mod made;
pub mod traits;
