//! Numbers of terms and rows, below 1,000.
ghost use Rattle.std.specs.Prelude.{◌≡◌, ◌<◌, ◌∷◌, [], IfSome};
ghost use Rattle.su_explained.specs.Numbers.{digit_of, with_digit, number_in};

/// The digit.
fn digit(byte: u8) -> Option<usize>
    ensures digit { result ≡ digit_of byte }
    ensures below { IfSome result (λ d. d < 10) }
{
    if b'0' <= byte && byte <= b'9' {
        return Some((byte - b'0') as usize);
    }
    None
}

/// The number with one more digit behind it.
fn more(front: usize, byte: u8) -> Option<usize>
    requires { front < 100 }
    ensures number { result ≡ with_digit byte front }
    ensures below { IfSome result (λ n. n < 1000) }
    ensures grows { front < 10 → IfSome result (λ n. n < 100) }
{
    if front == 0 {
        return None;
    }
    match digit(byte) {
        Some(last) => Some(front * 10 + last),
        None => None,
    }
}

fn two_digits(one: u8, two: u8) -> Option<usize>
    ensures number { result ≡ number_in (one ∷ two ∷ []) }
    ensures below { IfSome result (λ n. n < 100) }
{
    match digit(one) {
        Some(front) => more(front, two),
        None => None,
    }
}

/// The number that the word is the decimal of, without leading zeros, if it has at most three digits.
pub fn number_of(word: &[u8]) -> Option<usize>
    ensures number { result ≡ number_in word.now }
    ensures below { IfSome result (λ n. n < 1000) }
{
    match word {
        [one] => digit(*one),
        [one, two] => two_digits(*one, *two),
        [one, two, three] => match two_digits(*one, *two) {
            Some(front) => more(front, *three),
            None => None,
        },
        _ => None,
    }
}
