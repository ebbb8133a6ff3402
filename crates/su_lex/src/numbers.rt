//! The number at the front of a text.
ghost use Rattle.std.specs.Prelude.{◌≡◌, IfOk, IsErrOf, MatchOption};
ghost use Rattle.std.specs.List.{list_all};
ghost use Rattle.std.specs.Char.{is_ascii_digit};
ghost use Rattle.std.specs.Int.{w64};
ghost use Rattle.std.specs.Int.RustNames.{FitsSigned};
ghost use Rattle.std.specs.Str.Parse.{signed_digits_value};
ghost use Rattle.su_lex.specs.inside.Firsts.{IsFirstToken, HasNoFirstToken};
ghost use Rattle.su_lex.specs.TokenForms.{IsNumeral};
ghost use Rattle.su_lex.specs.inside.Classes.{class_at};
ghost use Rattle.su_lex.specs.declared.firsts.Class.TheVariants.{Number as OfNumber};

use crate::bytes::word_bytes;
use crate::ends::LexEnd;
use crate::kinds::TokenKind;

fn all_digits(bytes: &[u8]) -> bool
    ensures { result ≡ list_all is_ascii_digit bytes.now }
{
    bytes.iter().all(|b| b.is_ascii_digit())
}

/// The value of a numeral, where it is in range.
fn numeral_value(numeral: &[u8]) -> Option<i64>
    requires { IsNumeral numeral.now }
    ensures { MatchOption result (¬ (FitsSigned w64 (signed_digits_value 10 numeral.now)))
        (λ v. (v ≡ signed_digits_value 10 numeral.now) × FitsSigned w64 v) }
{
    match str::from_utf8(numeral) {
        Ok(text) => match text.parse::<i64>() {
            Ok(v) => Some(v),
            Err(_) => None,
        },
        Err(_) => None,
    }
}

/// The number at the front of a text that begins as one, and how many bytes it takes.
pub fn number(text: &[u8]) -> Result<(TokenKind, usize), LexEnd>
    requires { class_at text.now ≡ OfNumber }
    ensures found { IfOk result (λ t. IsFirstToken text.now t.0 t.1) }
    ensures none { IsErrOf result LexEnd.Syntax → HasNoFirstToken text.now }
{
    match text {
        [_, behind @ ..] => {
            let n = word_bytes(behind);
            if !all_digits(&behind[..n]) {
                return Err(LexEnd::Syntax);
            }
            match numeral_value(&text[..n + 1]) {
                Some(v) => Ok((TokenKind::Int(v), n + 1)),
                None => Err(LexEnd::Syntax),
            }
        }
        [] => Err(LexEnd::Syntax),
    }
}
