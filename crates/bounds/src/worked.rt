// Worked cases, by codes.
ghost use Rattle.std.specs.Prelude.{◌≡◌, pos, negsuc, Some};

use crate::dense::Dense;
use crate::tick::Tick;
use crate::{Cell, Reading};

// At most 3 and below 2 add to below 5.
pub fn seven_plus_four() -> Option<i32>
    ensures { result ≡ Some (pos 10) }
{
    Dense::of_code(7).plus(Dense::of_code(4)).coded()
}

// The opposite of at most 3 is below −3.
pub fn opposite_of_seven() -> Option<i32>
    ensures { result ≡ Some (negsuc 5) }
{
    Dense::of_code(7).opposed().coded()
}

// Below −1,000,000 and at most 1,000,000 under the dense reading. One for each scale, since the clauses state its numbers.
pub fn dense_range() -> (Option<i32>, Option<i32>)
    ensures lowest { result.0 ≡ Some (negsuc 1999999) }
    ensures highest { result.1 ≡ Some (pos 2000001) }
{
    (
        Dense::under(-1_000_000).coded(),
        Dense::at_most(1_000_000).coded(),
    )
}

// The same under ticks.
pub fn tick_range() -> (Option<i32>, Option<i32>)
    ensures lowest { result.0 ≡ Some (negsuc 1000000) }
    ensures highest { result.1 ≡ Some (pos 1000000) }
{
    (
        Tick::under(-1_000_000).coded(),
        Tick::at_most(1_000_000).coded(),
    )
}
