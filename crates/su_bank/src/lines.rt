//! The first and the last line of a text, and the line that tells what is found of a query.
ghost use Rattle.std.specs.Prelude.{◌≡◌, ◌+◌, length, not, position, IfOk};
ghost use Rattle.std.specs.List.{suffix_len};
ghost use Rattle.su_bank.specs.Lines.{is_feed, first_line, last_line, found_line};

use std::alloc::Global;
use su_base::NoMemory;

fn first_feed(text: &[u8]) -> Option<usize>
    ensures { result ≡ position is_feed text.now }
{
    text.iter().position(|b| *b == b'\n')
}

/// What stands before the first line feed.
pub(crate) fn first_line(text: &[u8]) -> &[u8]
    ensures { result.now ≡ first_line text.now }
{
    match first_feed(text) {
        Some(end) => &text[..end],
        None => text,
    }
}

/// Where the last line begins: behind the last line feed.
fn line_start(text: &[u8]) -> usize
    ensures { result + suffix_len (λ b. not (is_feed b)) text.now ≡ length text.now }
{
    let mut start = text.len();
    while start > 0 && text[start - 1] != b'\n' {
        start -= 1;
    }
    start
}

/// What stands behind the last line feed but the byte that ends the text.
pub(crate) fn last_line(text: &[u8]) -> &[u8]
    ensures { result.now ≡ last_line text.now }
{
    let front = &text[..text.len().saturating_sub(1)];
    &front[line_start(front)..]
}

/// The line of a query, by the replies to its explanation and to itself.
pub(crate) fn found_line(
    alloc: Global,
    number: u32,
    explained: &[u8],
    answered: &[u8],
) -> Result<Vec<u8>, NoMemory>
    ensures { IfOk result (λ line. line.items ≡ found_line number explained.now answered.now) }
{
    let mut line = format!(in alloc; "query {number}: ")?.into_bytes();
    line.extend_from_slice(last_line(explained))?;
    line.extend_from_slice(b" ")?;
    line.extend_from_slice(first_line(answered))?;
    line.extend_from_slice(b"\n")?;
    Ok(line)
}
