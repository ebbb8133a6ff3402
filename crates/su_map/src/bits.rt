//! Members of a set of numbers below 64.
ghost use Rattle.std.specs.Prelude.{◌≡◌, ◌<◌, ◌≤◌, ◌↔◌, ◌⊎◌, ℕ};
ghost use Rattle.std.specs.Int.{bit_at};

/// The least member.
#[tactic(auto, using(crate::proofs::Members::lowest_is))]
pub fn lowest(set: u64) -> usize
    requires { 0 < set }
    ensures small { result < 64 }
    ensures member { bit_at set result ≡ 1 }
    ensures least { (i : ℕ) → bit_at set i ≡ 1 → result ≤ i }
{
    set.trailing_zeros() as usize
}

/// The members of either.
pub fn either(a: u64, b: u64) -> u64
    ensures { (j : ℕ) → (bit_at result j ≡ 1) ↔ ((bit_at a j ≡ 1) ⊎ (bit_at b j ≡ 1)) }
{
    a | b
}
