//! Sets of row numbers in the bits of a machine word.
ghost use Rattle.std.specs.Prelude.{◌≡◌, ◌≢◌, ℕ, ◌+◌, ◌^◌, ◌<◌, ◌≤◌, ◌↔◌, IsTrue};
ghost use Rattle.std.specs.Int.{bit_at};

/// Whether the number is in the set.
pub fn has(mask: u64, i: usize) -> bool
    requires { i < 64 }
    ensures { IsTrue result ↔ (bit_at mask i ≡ 1) }
{
    mask >> i & 1 == 1
}

/// The set of one number.
pub fn bit(i: usize) -> u64
    requires { i < 64 }
    ensures { result ≡ 2 ^ i }
{
    1 << i
}

/// The set of the numbers below n.
pub fn full(n: usize) -> u64
    requires { n ≤ 64 }
    ensures { result + 1 ≡ 2 ^ n }
{
    if n == 64 { u64::MAX } else { (1 << n) - 1 }
}

/// The set without the number.
pub fn without(set: u64, i: usize) -> u64
    requires small { i < 64 }
    ensures same { (j : ℕ) → j ≢ i → bit_at result j ≡ bit_at set j }
    ensures out { bit_at result i ≡ 0 }
{
    set & !(1 << i)
}

/// The set with the number.
pub fn with(set: u64, i: usize) -> u64
    requires small { i < 64 }
    ensures same { (j : ℕ) → j ≢ i → bit_at result j ≡ bit_at set j }
    ensures member { bit_at result i ≡ 1 }
{
    set | 1 << i
}

/// The members of both.
pub fn both(a: u64, b: u64) -> u64
    ensures { (j : ℕ) → (bit_at result j ≡ 1) ↔ ((bit_at a j ≡ 1) × (bit_at b j ≡ 1)) }
{
    a & b
}
