// The reading under which grids 1 and 2 count.
#![tactic(auto)]

ghost use Rattle.std.specs.Prelude.{◌≡◌, pos, negsuc, Some};
ghost use Rattle.half_ticks.specs.HalfTicks.{half_counts, half_weight, half_greatest, half_most, half_below, half_sum, half_opposite};
ghost use Rattle.half_ticks.specs.HalfTickScale.{half_scale};

use bounds::bound::Bound;
use bounds::numbers::{added, taken};
use bounds::scale::Scale;
use bounds::{Cell, Reading};

// 2c is the code of at most c, 2c − 1 that of below c.
#[derive(Clone, Copy)]
pub struct HalfTickScale;

pub type HalfTick = Bound<HalfTickScale>;

impl Scale for HalfTickScale {
    ghost Counts = { half_counts };

    ghost weight = { half_weight };

    ghost greatest = { half_greatest };

    ghost most = { half_most };

    ghost below = { half_below };

    ghost sum = { half_sum };

    ghost opposite = { half_opposite };

    ghost keeps = { half_scale };

    fn at_most(c: i64) -> i64 {
        added(c, c)
    }

    fn under(c: i64) -> i64 {
        taken(added(c, c), 1)
    }

    fn plus(x: i64, y: i64) -> i64 {
        added(x, y)
    }

    fn opposed(x: i64) -> i64 {
        taken(-1, x)
    }
}

// Below −1,000,000 and at most 1,000,000, by codes.
pub fn half_tick_range() -> (Option<i32>, Option<i32>)
    ensures lowest { result.0 ≡ Some (negsuc 2000000) }
    ensures highest { result.1 ≡ Some (pos 2000000) }
{
    (
        HalfTick::under(-1_000_000).coded(),
        HalfTick::at_most(1_000_000).coded(),
    )
}
