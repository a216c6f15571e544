// Timed automata behind one interface.
#![tactic(auto)]

pub mod atom;
pub mod choice;
pub mod comparison;
pub mod deadline;
pub mod machine;
pub mod mask;
pub mod refusal;
