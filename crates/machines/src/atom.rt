// One condition of an edge.
use crate::comparison::Comparison;

// The comparison of a clock's value with a constant in ticks.
#[derive(Clone, Copy, PartialEq, Eq, Debug)]
pub struct Atom {
    pub clock: u8,
    pub comparison: Comparison,
    pub constant: u32,
}
