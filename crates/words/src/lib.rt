// Timed words of machines.
#![tactic(auto)]

pub mod laws;
mod player;
pub mod replay;
mod spot;
mod spots;
pub mod word;
