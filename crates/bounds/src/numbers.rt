// Sums and differences that wrap past 64 bits, and numbers of four signed bytes.
ghost use Rattle.std.specs.Prelude.{◌≡◌, ◌+◌, ◌^◌, ◌≤◌, ◌+ℤ◌, ◌-ℤ◌, unsigned_abs};
ghost use Rattle.bounds.specs.Keeps.{in_four_bytes};

// The code of no limit.
pub const FREE: i32 = 2_147_483_647;

pub fn added(x: i64, y: i64) -> i64
    ensures { unsigned_abs x + unsigned_abs y ≤ 2 ^ 62 → result ≡ x +ℤ y }
{
    x.wrapping_add(y)
}

pub fn taken(x: i64, y: i64) -> i64
    ensures { unsigned_abs x + unsigned_abs y ≤ 2 ^ 62 → result ≡ x -ℤ y }
{
    x.wrapping_sub(y)
}

// x as four signed bytes, where it fits.
pub fn narrowed(x: i64) -> Option<i32>
    ensures { result ≡ in_four_bytes x }
{
    i32::try_from(x).ok()
}
