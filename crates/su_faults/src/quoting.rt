//! The text in quotes at the front of a text.
ghost use Rattle.std.specs.Prelude.{◌≡◌, ◌≤◌, length, true, false, IfOk};
ghost use Rattle.std.specs.Str.{IsUtf8};
ghost use Rattle.su_lex.specs.inside.Firsts.{IsFirstToken, HasNoFirstToken};
ghost use Rattle.su_lex.specs.TokenForms.{twice};
ghost use Rattle.su_faults.specs.declared.firsts.Class.TheVariants.{OfText};
ghost use Rattle.su_faults.specs.inside.Firsts.{IsOfClass, IsPart, IsTextAt};

use std::alloc::Global;
use su_base::{List, NoMemory};

/// What stands at a place within a text.
#[derive(Clone, Copy)]
enum Part {
    Content(u8),
    Close,
    Missing,
}

fn part_at(rest: &[u8]) -> Part
    ensures { IsPart rest.now result }
{
    match rest {
        [b'\'', b'\'', ..] => Part::Content(b'\''),
        [b'\'', ..] => Part::Close,
        [b, ..] => Part::Content(*b),
        [] => Part::Missing,
    }
}

/// How many bytes stand for a byte of the content.
fn width(b: u8) -> usize
    ensures { result ≡ length (twice b) }
{
    if b == b'\'' { 2 } else { 1 }
}

/// Whether a text may have this content.
fn may_be_held(content: &[u8]) -> bool
    ensures yes { result ≡ true → IsUtf8 content.now × (length content.now ≤ 4096) }
    ensures no { result ≡ false → ¬ (IsUtf8 content.now × (length content.now ≤ 4096)) }
{
    content.len() <= 4096 && str::from_utf8(content).is_ok()
}

/// How many bytes the text at the front takes, which begins with a quote.
pub fn quoted(alloc: Global, text: &[u8]) -> Result<Option<usize>, NoMemory>
    requires { IsOfClass OfText text.now }
    ensures { IfOk result (IsTextAt text.now) }
{
    let mut content: List<u8> = List::new(alloc);
    let mut rest = &text[1..];
    loop {
        match part_at(rest) {
            Part::Content(b) => {
                content.push(b)?;
                rest = &rest[width(b)..];
            }
            Part::Close => break,
            Part::Missing => return Ok(None),
        }
    }
    if may_be_held(content.as_slice()) {
        return Ok(Some(text.len() - rest.len() + 1));
    }
    Ok(None)
}
