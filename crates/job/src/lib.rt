// The job that the program plays: its lines, the commands that they say, the batch that they write down, and the answers.
#![tactic(auto)]

pub mod answer;
mod command;
mod number;
mod reserved;
pub mod session;
#[cfg(test)]
mod tests;
mod words;
pub mod wrong;
