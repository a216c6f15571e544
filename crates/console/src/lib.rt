// The machines that a script has named.
#![tactic(auto)]

pub mod answer;
pub mod named;
pub mod part;
pub mod session;
