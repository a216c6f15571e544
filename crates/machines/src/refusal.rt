// Why an input or a call is refused.
ghost use Rattle.std.specs.Prelude.{◌≡◌, Some};
ghost use Rattle.machines.specs.Refusals.{number_of, place_of, text_of};

use std::fmt;

// One case for each number. A case that speaks of a record has the place of the record's first byte, and one
// that speaks of a step the step's number.
#[derive(Clone, Copy, PartialEq, Eq, Debug)]
pub enum Refusal {
    // The file is too long, or a record is cut short.
    Frame(usize),
    // A kind is not allowed at its place, there is an edge too many, or the head is missing.
    Kind(usize),
    // A length does not fit the kind and its counts, or a spare byte is not zero.
    Shape(usize),
    // A count, label, comparison or constant is outside its range.
    Range(usize),
    // An edge names a location or a clock that there is not.
    Missing(usize),
    // An edge leaves a lower location than the edge before it.
    Order(usize),
    // A pair would have too many locations or clocks, or be too wide.
    Pair,
    // The labels or the limit of a deadline do not fit.
    Deadline,
    // A word's grid, length, delays or labels are outside their ranges.
    Word,
    // More than 64 states stand after this step of a word.
    Crowd(usize),
}

impl Refusal {
    pub fn number(self) -> u8
        ensures { result ≡ number_of self }
    {
        match self {
            Refusal::Frame(_) => 1,
            Refusal::Kind(_) => 2,
            Refusal::Shape(_) => 3,
            Refusal::Range(_) => 4,
            Refusal::Missing(_) => 5,
            Refusal::Order(_) => 6,
            Refusal::Pair => 7,
            Refusal::Deadline => 8,
            Refusal::Word => 13,
            Refusal::Crowd(_) => 24,
        }
    }

    pub fn place(self) -> usize
        ensures { result ≡ place_of self }
    {
        match self {
            Refusal::Frame(at) | Refusal::Kind(at) | Refusal::Shape(at) => at,
            Refusal::Range(at) | Refusal::Missing(at) | Refusal::Order(at) => at,
            Refusal::Crowd(step) => step,
            Refusal::Pair | Refusal::Deadline | Refusal::Word => 0,
        }
    }
}

// As 'refused 4 at 12'.
impl fmt::Display for Refusal {
    ghost output = { λ e. Some (text_of e) };

    fn fmt<W: fmt::Write>(&self, f: &mut fmt::Formatter<W>) -> fmt::Result {
        write!(f, "refused {} at {}", self.number(), self.place())
    }
}
