// Model files: a timed automaton as records of bytes.
#![tactic(auto)]

mod check;
mod edges;
mod head;
pub mod numbers;
mod record;
pub mod table;
