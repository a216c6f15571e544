// Why a line of a script is not done.
ghost use Rattle.std.specs.Prelude.{◌≡◌, Some};
ghost use Rattle.scripts.specs.declared.fault.Fault.TheVariants.{Memory};
ghost use Rattle.scripts.specs.Faults.{message, fault_of};

use hex::FromHexError;
use std::alloc::{AllocError, AllocFailed};
use std::error::Error;
use std::fmt;

#[derive(Clone, Copy, PartialEq, Eq, Debug)]
pub enum Fault {
    // There is no memory for it.
    Memory,
    // It begins with no statement's word.
    Unknown,
    // It has too few words or too many.
    Words,
    // A word is no number, or the number is too large.
    Number,
    // A word is not made of pairs of hexadecimal digits.
    Hex,
    // A word is no delay, colon and label.
    Step,
    // No machine has the name.
    Missing,
    // The name stands for a pair, where a table or a deadline is wanted.
    Paired,
    // The file cannot be read.
    File,
}

// A derived message would have no contract.
impl fmt::Display for Fault {
    ghost output = { λ fault. Some (message fault) };

    fn fmt<W: fmt::Write>(&self, f: &mut fmt::Formatter<W>) -> fmt::Result {
        let text = match self {
            Fault::Memory => "out of memory",
            Fault::Unknown => "unknown statement",
            Fault::Words => "wrong number of words",
            Fault::Number => "not a number of 32 bits",
            Fault::Hex => "not pairs of hexadecimal digits",
            Fault::Step => "not a delay, a colon and a label",
            Fault::Missing => "no machine has this name",
            Fault::Paired => "a pair is no part of a pair",
            Fault::File => "the file cannot be read",
        };
        f.write_str(text)
    }
}

impl Error for Fault {}

// Clauses say which fault `?` makes of another error, and a derived conversion has none.
impl From<AllocError> for Fault {
    ghost from_gives = { λ _ r. r ≡ Memory };

    fn from(_e: AllocError) -> Fault {
        Fault::Memory
    }
}

impl<T: Drop> From<AllocFailed<T>> for Fault {
    ghost from_gives = { λ _ r. r ≡ Memory };

    fn from(_e: AllocFailed<T>) -> Fault {
        Fault::Memory
    }
}

impl From<FromHexError> for Fault {
    ghost from_gives = { λ e r. r ≡ fault_of e };

    fn from(e: FromHexError) -> Fault {
        match e {
            FromHexError::OutOfMemory => Fault::Memory,
            _ => Fault::Hex,
        }
    }
}
