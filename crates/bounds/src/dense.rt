// The reading under which every grid counts.
ghost use Rattle.std.specs.Prelude.{◌≡◌, ◌+◌, ◌<◌, ◌≤◌, min, ℤ, pos, ◌+ℤ◌, unsigned_abs, ◌==◌, if◌then◌else◌};
ghost use Rattle.bounds.specs.Keeps.{limit};
ghost use Rattle.bounds.specs.Dense.{half, bit, twice, dense_counts, dense_weight, dense_greatest, dense_most, dense_below, dense_sum, dense_opposite};
ghost use Rattle.bounds.specs.DenseScale.{dense_scale};

use crate::bound::Bound;
use crate::numbers::{added, taken};
use crate::scale::Scale;

// 2c + 1 is the code of at most c, 2c that of below c.
#[derive(Clone, Copy)]
pub struct DenseScale;

pub type Dense = Bound<DenseScale>;

// The constant of a code. A code stays one number, as the laws have it; these are its two parts.
fn constant(code: i64) -> i64
    ensures { result ≡ half code }
{
    code.div_euclid(2)
}

// Whether the bound itself can be met.
fn weak(code: i64) -> bool
    ensures { result ≡ (bit code == 1) }
{
    code.rem_euclid(2) == 1
}

// Whether the sum of two bounds can be met.
fn both_weak(x: i64, y: i64) -> bool
    ensures { result ≡ (min (bit x) (bit y) == 1) }
{
    weak(x) && weak(y)
}

// The constant of the sum of two bounds.
fn constants(x: i64, y: i64) -> i64
    ensures { dense_weight x + dense_weight y ≤ limit → result ≡ half x +ℤ half y }
{
    added(constant(x), constant(y))
}

// The code of at most c where `weak`, and else of below c.
fn code_of(c: i64, weak: bool) -> i64
    ensures { unsigned_abs c ≤ limit → result ≡ (if weak then dense_most c else dense_below c) }
{
    added(added(c, c), i64::from(weak))
}

impl Scale for DenseScale {
    ghost Counts = { dense_counts };

    ghost weight = { dense_weight };

    ghost greatest = { dense_greatest };

    ghost most = { dense_most };

    ghost below = { dense_below };

    ghost sum = { dense_sum };

    ghost opposite = { dense_opposite };

    ghost keeps = { dense_scale };

    fn at_most(c: i64) -> i64 {
        code_of(c, true)
    }

    fn under(c: i64) -> i64 {
        code_of(c, false)
    }

    fn plus(x: i64, y: i64) -> i64 {
        code_of(constants(x, y), both_weak(x, y))
    }

    fn opposed(x: i64) -> i64 {
        taken(1, x)
    }
}
