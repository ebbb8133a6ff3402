//! The text in quotes at the front of a text.
ghost use Rattle.std.specs.Prelude.{◌≡◌, ◌≤◌, length, IfOk, IsErrOf};
ghost use Rattle.std.specs.Str.{IsUtf8};
ghost use Rattle.su_lex.specs.inside.Firsts.{IsFirstToken, HasNoFirstToken};
ghost use Rattle.su_lex.specs.TokenForms.{twice};
ghost use Rattle.su_lex.specs.inside.Classes.{class_at, place_at};
ghost use Rattle.su_lex.specs.declared.firsts.Class.TheVariants.{Text as OfText};

use crate::bytes::unquoted_bytes;
use crate::ends::LexEnd;
use crate::kinds::TokenKind;
use std::alloc::Global;
use su_base::Str;

/// What stands at a place within a text.
#[derive(Clone, Copy, PartialEq, Eq, Debug)]
enum QuotedPart {
    Content(u8),
    Close,
    Missing,
}

fn place_of(rest: &[u8]) -> QuotedPart
    ensures { result ≡ place_at rest.now }
{
    match rest {
        [b'\'', b'\'', ..] => QuotedPart::Content(b'\''),
        [b'\'', ..] => QuotedPart::Close,
        [b, ..] => QuotedPart::Content(*b),
        [] => QuotedPart::Missing,
    }
}

/// How many bytes stand for a byte of the content.
fn width(b: u8) -> usize
    ensures { result ≡ length (twice b) }
{
    if b == b'\'' { 2 } else { 1 }
}

/// The token of a text of this content.
fn text_of(alloc: Global, content: &[u8]) -> Result<TokenKind, LexEnd>
    ensures found { IfOk result (λ kind. (kind ≡ TokenKind.Text content.now) × IsUtf8 content.now × (length content.now ≤ 4096)) }
    ensures none { IsErrOf result LexEnd.Syntax → ¬ (IsUtf8 content.now × (length content.now ≤ 4096)) }
{
    if content.len() > 4096 {
        return Err(LexEnd::Syntax);
    }
    match str::from_utf8(content) {
        Ok(content) => Ok(TokenKind::Text(Str::new(alloc, content)?)),
        Err(_) => Err(LexEnd::Syntax),
    }
}

/// The text at the front, which begins with a quote, and how many bytes it takes. Its content is put
/// together byte by byte.
fn doubled_text(alloc: Global, text: &[u8]) -> Result<(TokenKind, usize), LexEnd>
    requires { class_at text.now ≡ OfText }
    ensures found { IfOk result (λ t. IsFirstToken text.now t.0 t.1) }
    ensures none { IsErrOf result LexEnd.Syntax → HasNoFirstToken text.now }
{
    let mut content = Vec::new(alloc);
    let mut rest = &text[1..];
    loop {
        match place_of(rest) {
            QuotedPart::Content(b) => {
                content.push(b)?;
                rest = &rest[width(b)..];
            }
            QuotedPart::Close => break,
            QuotedPart::Missing => return Err(LexEnd::Syntax),
        }
    }
    let kind = text_of(alloc, content.as_slice())?;
    Ok((kind, text.len() - rest.len() + 1))
}

/// The text at the front, which begins with a quote, and how many bytes it takes. Where no quote stands
/// in it, the bytes of the text are its content.
pub fn quoted_text(alloc: Global, text: &[u8]) -> Result<(TokenKind, usize), LexEnd>
    requires { class_at text.now ≡ OfText }
    ensures found { IfOk result (λ t. IsFirstToken text.now t.0 t.1) }
    ensures none { IsErrOf result LexEnd.Syntax → HasNoFirstToken text.now }
{
    let behind = &text[1..];
    let n = unquoted_bytes(behind);
    match place_of(&behind[n..]) {
        QuotedPart::Close => {
            let kind = text_of(alloc, &behind[..n])?;
            Ok((kind, n + 2))
        }
        QuotedPart::Missing => Err(LexEnd::Syntax),
        QuotedPart::Content(_) => doubled_text(alloc, text),
    }
}
