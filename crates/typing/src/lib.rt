// Pass three of the grammars: initializations, bodies and Main.
#![tactic(auto)]

pub mod checker;
pub mod expr;
pub mod local;
pub mod settled;
mod view;
