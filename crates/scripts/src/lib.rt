// The statements of a script.
#![tactic(auto)]

pub mod digits;
pub mod fault;
pub mod letters;
pub mod number;
pub mod source;
pub mod statement;
pub mod text;
