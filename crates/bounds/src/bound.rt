// Bounds over a scale.
ghost use Rattle.std.specs.Prelude.{◌≡◌, pos, Some};
ghost use Rattle.bounds.specs.Bounds.{bound_leq, bound_sum, bound_made, bound_weight, bound_limited, bound_greatest, bound_free, bound_opposite, bound_code, bound_read, is_filed};
ghost use Rattle.bounds.specs.BoundLaws.{bound_laws};
ghost use Rattle.bounds.specs.BoundKeeps.{bound_keeps};

use crate::numbers::{FREE, narrowed};
use crate::scale::Scale;
use crate::{Cell, Reading};
use std::marker::PhantomData;

#[derive(Clone, Copy)]
pub struct Bound<S> {
    // The code of the limit, or none where there is no limit.
    pub limit: Option<i64>,
    // Public, so that a bound can be written in a constant, where nothing may be called.
    pub scale: PhantomData<S>,
}

// The largest constant, without sign, whose codes are read back.
const WIDEST: i64 = 1_000_000;

impl<S> Bound<S> {
    fn new(limit: Option<i64>) -> Self
        ensures { result.limit ≡ limit }
    {
        Bound {
            limit,
            scale: PhantomData,
        }
    }

    // The limit with this code.
    pub fn of_code(code: i64) -> Self
        ensures { result.limit ≡ Some code }
    {
        Bound::new(Some(code))
    }
}

// Whether a code is read back: from below −1,000,000 to at most 1,000,000.
fn is_filed<S: Scale>(code: i64) -> bool
    ensures { result ≡ is_filed S.most S.below code }
{
    (S::under(-WIDEST)..=S::at_most(WIDEST)).contains(&code)
}

impl<S: Scale> Cell for Bound<S> {
    ghost leq = { bound_leq };

    ghost sum = { bound_sum S.sum };

    ghost zero = { bound_made S.most (pos 0) };

    ghost weight = { bound_weight S.weight };

    ghost lawful = { bound_laws S.keeps };

    fn neutral() -> Self {
        Bound::of_code(S::at_most(0))
    }

    // Not `<=` of the options, by which no limit would be the least.
    fn not_above(&self, other: &Self) -> bool {
        other
            .limit
            .is_none_or(|y| self.limit.is_some_and(|x| x <= y))
    }

    fn plus(self, other: Self) -> Self {
        Bound::new(self.limit.zip(other.limit).map(|(x, y)| S::plus(x, y)))
    }
}

impl<S: Scale> Reading for Bound<S> {
    ghost Counts = { S.Counts };

    ghost limited = { bound_limited };

    ghost greatest = { bound_greatest S.greatest };

    ghost most = { bound_made S.most };

    ghost below = { bound_made S.below };

    ghost free = { bound_free };

    ghost opposite = { bound_opposite S.opposite };

    ghost code = { bound_code };

    ghost read = { bound_read S.most S.below };

    ghost keeps = { bound_keeps S.keeps };

    fn at_most(c: i64) -> Self {
        Bound::of_code(S::at_most(c))
    }

    fn under(c: i64) -> Self {
        Bound::of_code(S::under(c))
    }

    fn unlimited() -> Self {
        Bound::new(None)
    }

    fn is_limited(&self) -> bool {
        self.limit.is_some()
    }

    fn opposed(self) -> Self {
        // The method's own name would not do in place of the closure: it does not fit the bound of `map` here.
        Bound::new(self.limit.map(|x| S::opposed(x)))
    }

    fn decoded(z: i32) -> Option<Self> {
        if z == FREE {
            return Some(Bound::unlimited());
        }
        let code = i64::from(z);
        is_filed::<S>(code).then_some(Bound::of_code(code))
    }

    fn coded(&self) -> Option<i32> {
        self.limit.map_or(Some(FREE), narrowed)
    }
}
