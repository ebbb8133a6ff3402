//! The number at the front of a text.
ghost use Rattle.std.specs.Prelude.{◌≡◌, ℤ, MatchOption};
ghost use Rattle.std.specs.List.{list_all};
ghost use Rattle.std.specs.Char.{is_ascii_digit};
ghost use Rattle.std.specs.Int.{w64};
ghost use Rattle.std.specs.Int.RustNames.{FitsSigned};
ghost use Rattle.std.specs.Str.Parse.{signed_digits_value};
ghost use Rattle.su_lex.specs.inside.Firsts.{IsFirstToken, HasNoFirstToken};
ghost use Rattle.su_lex.specs.TokenForms.{IsNumeral};
ghost use Rattle.su_lex.specs.declared.kinds.TokenKind.TheVariants.{Int};
ghost use Rattle.su_faults.specs.inside.Firsts.{IsOfClass};
ghost use Rattle.su_faults.specs.declared.firsts.Class.TheVariants.{OfNumber};

use crate::runs::word_bytes;

fn all_digits(bytes: &[u8]) -> bool
    ensures { result ≡ list_all is_ascii_digit bytes.now }
{
    bytes.iter().all(|b| b.is_ascii_digit())
}

/// The value of a numeral, where it is in range.
fn numeral_value(numeral: &[u8]) -> Option<i64>
    requires { IsNumeral numeral.now }
    ensures { MatchOption result (¬ (FitsSigned w64 (signed_digits_value 10 numeral.now)))
        (λ v. (v ≡ signed_digits_value 10 numeral.now) × FitsSigned w64 v) }
{
    match str::from_utf8(numeral) {
        Ok(text) => match text.parse::<i64>() {
            Ok(v) => Some(v),
            Err(_) => None,
        },
        Err(_) => None,
    }
}

/// How many bytes the number at the front of a text takes that begins as one.
pub fn number(text: &[u8]) -> Option<usize>
    requires { IsOfClass OfNumber text.now }
    ensures { MatchOption result (HasNoFirstToken text.now) (λ n. (v : ℤ) × IsFirstToken text.now (Int v) n) }
{
    match text {
        [_, behind @ ..] => {
            let n = word_bytes(behind);
            if !all_digits(&behind[..n]) {
                return None;
            }
            match numeral_value(&text[..n + 1]) {
                Some(_) => Some(n + 1),
                None => None,
            }
        }
        [] => None,
    }
}
