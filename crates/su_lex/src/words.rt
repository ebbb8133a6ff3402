//! The word at the front of a text.
ghost use Rattle.std.specs.Prelude.{◌≡◌, IfOk, IsErrOf};
ghost use Rattle.su_lex.specs.inside.Firsts.{IsFirstToken, HasNoFirstToken};
ghost use Rattle.su_lex.specs.inside.Classes.{class_at};
ghost use Rattle.su_lex.specs.declared.firsts.Class.TheVariants.{Word as OfWord};

use crate::bytes::word_bytes;
use crate::ends::LexEnd;
use crate::kinds::TokenKind;

/// The word at the front of a text that begins with a letter, and how many bytes it takes.
pub fn word(text: &[u8]) -> Result<(TokenKind, usize), LexEnd>
    requires { class_at text.now ≡ OfWord }
    ensures found { IfOk result (λ t. IsFirstToken text.now t.0 t.1) }
    ensures none { IsErrOf result LexEnd.Syntax → HasNoFirstToken text.now }
{
    let n = word_bytes(text);
    if n > 64 {
        return Err(LexEnd::Syntax);
    }
    Ok((TokenKind::Word, n))
}
