//! Lists of row numbers.
ghost use Rattle.std.specs.Prelude.{◌≡◌, ◌<◌, ◌↔◌, IsTrue, length, get_or, All, Contains};
ghost use Rattle.su_base.specs.Lists.{IsAscending};

/// Whether the number is in the list.
pub fn contains(numbers: &[u8], n: u8) -> bool
    ensures { IsTrue result ↔ Contains numbers.now n }
{
    numbers.contains(&n)
}

/// Whether the numbers ascend.
pub fn is_ascending(numbers: &[u8]) -> bool
    ensures { IsTrue result ↔ IsAscending numbers.now }
{
    for i in 1..numbers.len() {
        if numbers[i - 1] >= numbers[i] {
            return false;
        }
    }
    true
}

/// Whether the numbers are below n.
pub fn are_below(numbers: &[u8], n: usize) -> bool
    ensures { IsTrue result ↔ All (λ k. k < n) numbers.now }
{
    numbers.iter().all(|k| (*k as usize) < n)
}
