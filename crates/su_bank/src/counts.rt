//! The number of rows that is asked for.
ghost use Rattle.std.specs.Prelude.{ℕ, MatchOption};
ghost use Rattle.su_bank.specs.Scripts.{IsRowCount};

use itoa::Buffer;

/// The number from 1 to 1,000 whose decimal this is, without a sign or a leading zero. Each is held
/// against it, which takes some microseconds.
pub fn row_count(digits: &str) -> Option<u32>
    ensures { MatchOption result ((n : ℕ) → ¬ IsRowCount digits.now n) (IsRowCount digits.now) }
{
    let mut buffer = Buffer::new();
    for n in 1..1001u32 {
        if buffer.format(n) == digits {
            return Some(n);
        }
    }
    None
}
