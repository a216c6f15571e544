// What follows from the laws for every reading. The contract is the theorem; the function does nothing.
ghost use Rattle.bounds.specs.Facts.{BelowZero, OppositeNumber, Room, NoRoom};

use crate::Reading;

pub fn bound_facts<R: Reading>()
    ensures below_zero { BelowZero R.Cell.leq R.Cell.zero R.Cell.weight R.Reading.Counts R.Reading.greatest }
    ensures opposite_number { OppositeNumber R.Cell.weight R.Reading.Counts R.Reading.limited R.Reading.greatest R.Reading.opposite }
    ensures room { Room R.Cell.leq R.Cell.sum R.Cell.zero R.Cell.weight R.Reading.opposite }
    ensures no_room { NoRoom R.Cell.leq R.Cell.sum R.Cell.zero R.Cell.weight R.Reading.limited R.Reading.opposite }
{}
