//! Variables as words.
ghost use Rattle.std.specs.Prelude.{◌≡◌, ◌<◌, ◌^◌, ◌∷◌, ◌↔◌, ℕ, IsTrue, IfOk, MatchOption, decimal};

use std::alloc::Global;
use su_base::NoMemory;

fn same(a: &str, b: &str) -> bool
    ensures { IsTrue result ↔ (a.now ≡ b.now) }
{
    a == b
}

/// The number that is written so, without leading zeros.
fn number_written(alloc: Global, digits: &str) -> Result<Option<u32>, NoMemory>
    ensures { IfOk result (λ o. MatchOption o ((k : ℕ) → k < 2 ^ 32 → ¬ (digits.now ≡ decimal k)) (λ k. (digits.now ≡ decimal k) × (k < 2 ^ 32))) }
{
    let Ok(number) = digits.parse::<u32>() else {
        return Ok(None);
    };
    let written = number.to_string(alloc)?;
    if same(written.as_str(), digits) {
        return Ok(Some(number));
    }
    Ok(None)
}

/// The number of the variable that the word is.
pub fn variable(alloc: Global, word: &str) -> Result<Option<u32>, NoMemory>
    ensures { IfOk result (λ o. MatchOption o ((k : ℕ) → k < 2 ^ 32 → ¬ (word.now ≡ 118 ∷ decimal k)) (λ k. (word.now ≡ 118 ∷ decimal k) × (k < 2 ^ 32))) }
{
    match word.strip_prefix("v") {
        Some(digits) => number_written(alloc, digits),
        None => Ok(None),
    }
}
