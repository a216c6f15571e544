// The reading under which grid 1 alone counts.
ghost use Rattle.bounds.specs.Tick.{tick_counts, tick_weight, tick_greatest, tick_most, tick_below, tick_sum, tick_opposite};
ghost use Rattle.bounds.specs.TickScale.{tick_scale};

use crate::bound::Bound;
use crate::numbers::{added, taken};
use crate::scale::Scale;

// c is the code of at most c, c − 1 that of below c.
#[derive(Clone, Copy)]
pub struct TickScale;

pub type Tick = Bound<TickScale>;

impl Scale for TickScale {
    ghost Counts = { tick_counts };

    ghost weight = { tick_weight };

    ghost greatest = { tick_greatest };

    ghost most = { tick_most };

    ghost below = { tick_below };

    ghost sum = { tick_sum };

    ghost opposite = { tick_opposite };

    ghost keeps = { tick_scale };

    fn at_most(c: i64) -> i64 {
        c
    }

    fn under(c: i64) -> i64 {
        taken(c, 1)
    }

    fn plus(x: i64, y: i64) -> i64 {
        added(x, y)
    }

    fn opposed(x: i64) -> i64 {
        taken(-1, x)
    }
}
