// What differs from one kind of bound to another: how its limits have codes.
ghost use Rattle.std.specs.Prelude.{◌≡◌, ℕ, ◌+◌, ◌≤◌, ℤ, unsigned_abs};
ghost use Rattle.bounds.specs.Keeps.{limit};
ghost use Rattle.bounds.specs.Scales.{Scaled};

pub trait Scale: Copy {
    // The grids that count.
    ghost Counts: { ℕ → Type 0 };

    // The size of the constant of a code's limit.
    ghost weight: { ℤ → ℕ };

    // The greatest whole number of Nths that meets the limit.
    ghost greatest: { ℤ → ℕ → ℤ };

    ghost most: { ℤ → ℤ };

    ghost below: { ℤ → ℤ };

    ghost sum: { ℤ → ℤ → ℤ };

    ghost opposite: { ℤ → ℤ };

    // The code of at most c.
    fn at_most(c: i64) -> i64
        ensures { unsigned_abs c ≤ limit → result ≡ most c };

    // The code of below c.
    fn under(c: i64) -> i64
        ensures { unsigned_abs c ≤ limit → result ≡ below c };

    fn plus(x: i64, y: i64) -> i64
        ensures { weight x + weight y ≤ limit → result ≡ sum x y };

    fn opposed(x: i64) -> i64
        ensures { weight x ≤ limit → result ≡ opposite x };

    ghost keeps: { Scaled Counts weight greatest most below sum opposite };
}
