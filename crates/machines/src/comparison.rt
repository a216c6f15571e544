// Comparisons of a clock's value with a constant.
ghost use Rattle.std.specs.Prelude.{◌≡◌, Some, MatchBool};
ghost use Rattle.machines.specs.Comparisons.{code, coded, sign_of};
ghost use Rattle.machines.specs.Steps.{Compares};

use std::fmt;

#[derive(Clone, Copy, PartialEq, Eq, Debug)]
pub enum Comparison {
    Below,
    AtMost,
    Above,
    AtLeast,
}

// 0 is below, 1 at most, 2 above, and any other at least.
impl From<u8> for Comparison {
    ghost from_gives = { λ n c. c ≡ coded n };

    fn from(n: u8) -> Comparison {
        match n {
            0 => Comparison::Below,
            1 => Comparison::AtMost,
            2 => Comparison::Above,
            _ => Comparison::AtLeast,
        }
    }
}

impl Comparison {
    // Whether the value is so to the limit.
    pub fn holds(self, value: u64, limit: u64) -> bool
        ensures { MatchBool result (Compares (code self) value limit) (Compares (code self) value limit → ⊥) }
    {
        match self {
            Comparison::Below => value < limit,
            Comparison::AtMost => value <= limit,
            Comparison::Above => value > limit,
            Comparison::AtLeast => value >= limit,
        }
    }

    pub fn sign(self) -> &'static str
        ensures { result.now ≡ sign_of self }
    {
        match self {
            Comparison::Below => "<",
            Comparison::AtMost => "<=",
            Comparison::Above => ">",
            Comparison::AtLeast => ">=",
        }
    }
}

impl fmt::Display for Comparison {
    ghost output = { λ c. Some (sign_of c) };

    fn fmt<W: fmt::Write>(&self, f: &mut fmt::Formatter<W>) -> fmt::Result {
        write!(f, "{}", self.sign())
    }
}
