//! The sign at the front of a text.
ghost use Rattle.std.specs.Prelude.{◌≡◌, length};
ghost use Rattle.su_lex.specs.TokenForms.{sign_bytes};
ghost use Rattle.su_lex.specs.inside.Classes.{sign_at};

use su_lex::Sign;

/// The longest sign at the front.
pub fn sign_of(text: &[u8]) -> Option<Sign>
    ensures { result ≡ sign_at text.now }
{
    match text {
        [b'(', ..] => Some(Sign::Open),
        [b')', ..] => Some(Sign::Close),
        [b',', ..] => Some(Sign::Comma),
        [b'.', ..] => Some(Sign::Dot),
        [b'-', b'>', ..] => Some(Sign::Arrow),
        [b'=', ..] => Some(Sign::Equal),
        [b'!', b'=', ..] => Some(Sign::NotEqual),
        [b'<', b'=', ..] => Some(Sign::LessEqual),
        [b'<', ..] => Some(Sign::Less),
        [b'>', b'=', ..] => Some(Sign::GreaterEqual),
        [b'>', ..] => Some(Sign::Greater),
        _ => None,
    }
}

/// How many bytes a sign takes.
pub fn sign_len(sign: Sign) -> usize
    ensures { result ≡ length (sign_bytes sign) }
{
    match sign {
        Sign::Arrow | Sign::NotEqual | Sign::LessEqual | Sign::GreaterEqual => 2,
        _ => 1,
    }
}
