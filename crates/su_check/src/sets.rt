//! Sets of row numbers in the bits of a machine word.
ghost use Rattle.std.specs.Prelude.{◌≡◌, ◌<◌, ℕ};
ghost use Rattle.std.specs.Int.{bit_at};

/// The set with the number.
pub fn with(set: u64, i: usize) -> u64
    requires { i < 64 }
    ensures stays { (j : ℕ) → bit_at set j ≡ 1 → bit_at result j ≡ 1 }
    ensures member { bit_at result i ≡ 1 }
{
    set | 1 << i
}

/// The members of both.
pub fn both(a: u64, b: u64) -> u64
    ensures { (j : ℕ) → bit_at a j ≡ 1 → bit_at b j ≡ 1 → bit_at result j ≡ 1 }
{
    a & b
}
