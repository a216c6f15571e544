// The product of two machines.
#![tactic(auto)]

pub mod pair;
mod part;
mod place;
mod site;
