//! A file is cut into statements at each `;` that stands outside texts and comments.
ghost use Rattle.std.specs.Prelude.{◌≡◌, ◌≤◌, length, false, not, ◌==◌, IfOk, All, ◌∷◌, ◌++◌, [], drop, OnOk, List as Items};
ghost use Rattle.su_lex.specs.Blanks.{begins};
ghost use Rattle.su_lex.specs.Pieces.{after_mark, Part, Parts, Statement, added, Pieces, LiesWithin};
ghost use Rattle.su_lex.specs.declared.spans.Span.{Span as ASpan};

use crate::bytes::unquoted_bytes;
use crate::comments::{after_blanks, after_comment, is_comment};
use crate::spans::Span;
use std::alloc::Global;
use su_base::{List, NoMemory};

/// The bytes without the byte order mark that may stand at their front.
fn without_mark(bytes: &[u8]) -> &[u8]
    ensures behind { result.now ≡ after_mark bytes.now }
    ensures within { length result.now ≤ length bytes.now }
{
    match bytes {
        [0xef, 0xbb, 0xbf, behind @ ..] => behind,
        _ => bytes,
    }
}

/// What follows the quote that closes a text, or the end where none closes it.
fn after_quote(content: &[u8]) -> &[u8]
    ensures part { Part (39 ∷ content.now) result.now }
    ensures within { length result.now ≤ length content.now }
{
    match &content[unquoted_bytes(content)..] {
        [_, behind @ ..] => behind,
        [] => &[],
    }
}

/// What follows the pieces of text up to the next `;`, or the end.
fn after_piece(bytes: &[u8]) -> &[u8]
    ensures behind { Parts bytes.now result.now }
    ensures ends { begins (λ b. not (b == 59)) result.now ≡ false }
    ensures within { length result.now ≤ length bytes.now }
{
    let mut rest = bytes;
    while let [b, behind @ ..] = rest {
        if *b == b';' {
            return rest;
        } else if *b == b'\'' {
            rest = after_quote(behind);
        } else if is_comment(rest) {
            rest = after_comment(rest);
        } else {
            rest = behind;
        }
    }
    rest
}

/// The statement that the piece from `bytes` to `behind` is: none where only white space and comments
/// stand in it. Both are ends of a file of `total` bytes.
fn statement(total: usize, bytes: &[u8], behind: &[u8]) -> Option<Span>
    requires parts { Parts bytes.now behind.now }
    requires ends { begins (λ b. not (b == 59)) behind.now ≡ false }
    requires within { length bytes.now ≤ total }
    ensures { Statement total bytes.now behind.now result }
{
    if after_blanks(bytes).len() <= behind.len() {
        return None;
    }
    Some(Span {
        start: total - bytes.len(),
        end: total - behind.len(),
    })
}

/// Adds the statement, if there is one.
fn push_statement(spans: &mut List<Span>, span: Option<Span>) -> Result<(), NoMemory>
    ensures { OnOk result (spans.new ≡ spans.old ++ added span []) }
{
    if let Some(span) = span {
        spans.push(span)?;
    }
    Ok(())
}

/// What follows the `;` at the front, if there is one.
fn after_cut(bytes: &[u8]) -> &[u8]
    ensures { result.now ≡ drop 1 bytes.now }
{
    match bytes {
        [_, behind @ ..] => behind,
        [] => bytes,
    }
}

/// The statements of a file, in order, each without the `;` behind it. A piece that holds only white
/// space and comments is none. A byte order mark at the front is dropped, and the spans count it.
pub fn cut(alloc: Global, bytes: &[u8]) -> Result<List<Span>, NoMemory>
    ensures pieces { IfOk result (λ spans. Pieces bytes.now spans) }
    ensures only { IfOk result (λ spans. (others : Items ASpan) → Pieces bytes.now others → others ≡ spans) }
    ensures within { IfOk result (λ spans. All (LiesWithin bytes.now) spans) }
{
    let mut spans = List::new(alloc);
    let mut rest = without_mark(bytes);
    while !rest.is_empty() {
        let behind = after_piece(rest);
        push_statement(&mut spans, statement(bytes.len(), rest, behind))?;
        rest = after_cut(behind);
    }
    Ok(spans)
}
