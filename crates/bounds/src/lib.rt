// Bounds on differences of clock values: an order, a sum and a neutral bound, and what they mean under a reading of time.
#![tactic(auto)]

ghost use Rattle.std.specs.Prelude.{◌≡◌, ℕ, ◌+◌, ◌≤◌, Bool, true, false, ℤ, Option, unsigned_abs};
ghost use Rattle.bounds.specs.Laws.{Laws};
ghost use Rattle.bounds.specs.Keeps.{Keeps, limit, in_four_bytes};

pub mod bound;
pub mod dense;
pub mod facts;
pub mod numbers;
pub mod scale;
pub mod tick;
pub mod worked;

pub trait Cell: Copy {
    ghost leq: { Self → Self → Bool };

    ghost sum: { Self → Self → Self };

    ghost zero: { Self };

    // The size of a bound's constant. The laws are owed while the weights add to at most `limit`.
    ghost weight: { Self → ℕ };

    fn neutral() -> Self
        ensures { result ≡ zero };

    fn not_above(&self, other: &Self) -> bool
        ensures { result ≡ leq self.now other.now };

    fn plus(self, other: Self) -> Self
        ensures { weight self + weight other ≤ limit → result ≡ sum self other };

    ghost lawful: { Laws leq sum zero weight };
}

pub trait Reading: Cell {
    // The grids that count.
    ghost Counts: { ℕ → Type 0 };

    ghost limited: { Self → Bool };

    // The greatest whole number of Nths that meets a limited bound.
    ghost greatest: { Self → ℕ → ℤ };

    ghost most: { ℤ → Self };

    ghost below: { ℤ → Self };

    ghost free: { Self };

    ghost opposite: { Self → Self };

    ghost code: { Self → ℤ };

    ghost read: { ℤ → Option Self };

    fn at_most(c: i64) -> Self
        ensures { unsigned_abs c ≤ limit → result ≡ most c };

    // Below c.
    fn under(c: i64) -> Self
        ensures { unsigned_abs c ≤ limit → result ≡ below c };

    fn unlimited() -> Self
        ensures { result ≡ free };

    fn is_limited(&self) -> bool
        ensures { result ≡ limited self.now };

    // The opposite of a limited bound; no limit stays no limit.
    fn opposed(self) -> Self
        ensures turned { limited self ≡ true → Self.Cell.weight self ≤ limit → result ≡ opposite self }
        ensures stays { limited self ≡ false → result ≡ free };

    // The bound of a code.
    fn decoded(z: i32) -> Option<Self>
        ensures { result ≡ read z };

    // The code, where it is one of four signed bytes.
    fn coded(&self) -> Option<i32>
        ensures { result ≡ in_four_bytes (code self.now) };

    ghost keeps: { Keeps Self.Cell.leq Self.Cell.sum Self.Cell.zero Self.Cell.weight Counts limited greatest most below free opposite code read };
}
