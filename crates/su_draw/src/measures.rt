//! How wide texts are, in pixels.
ghost use Rattle.std.specs.Prelude.{◌≡◌, ◌≤◌, take};
ghost use Rattle.su_draw.specs.Terms.{word_in, words_at};
ghost use Rattle.su_draw.specs.Widths.{byte_width, width_of as wide};
ghost use Rattle.su_draw.specs.inside.Lay.{offset_from, offset_of as offset};

use crate::cutting::shown_width;
use su_base::List;
use su_explained::Line;

/// How wide a character is, and how far apart lines are.
pub(crate) const WIDE: u32 = 8;

pub(crate) const HIGH: u32 = 20;

/// So many lanes; no more than a thousand.
pub(crate) fn lanes(count: usize) -> u32
    ensures { result ≤ 1000 }
{
    if count < 1000 { count as u32 } else { 1000 }
}

/// How wide a byte is: a character beyond ASCII is taken to be twice as wide.
fn width_at(byte: u8) -> u32
    ensures { result ≡ byte_width byte }
{
    if 128 <= byte && byte <= 191 {
        return 0;
    }
    if 192 <= byte { 2 * WIDE } else { WIDE }
}

/// How wide a text is.
pub(crate) fn width_of(text: &[u8]) -> u32
    ensures { result ≡ wide text.now }
{
    let mut width: u32 = 0;
    for byte in text {
        width = width.saturating_add(width_at(*byte));
    }
    width
}

/// So many of the words, from the first one on.
pub(crate) fn front_of(words: &[List<u8>], count: usize) -> &[List<u8>]
    ensures { result.now ≡ take count words.now }
{
    if count <= words.len() {
        return &words[..count];
    }
    words
}

/// How far behind the first of these words the next one begins.
fn offset_behind(words: &[List<u8>]) -> u32
    ensures { result ≡ offset_from 0 words.now }
{
    let mut offset: u32 = 0;
    for word in words {
        offset = offset
            .saturating_add(shown_width(word.as_slice()))
            .saturating_add(WIDE);
    }
    offset
}

/// How far behind the line's beginning the word with this number begins.
pub(crate) fn offset_of(words: &[List<u8>], word: usize) -> u32
    ensures { result ≡ offset words.now word }
{
    offset_behind(front_of(words, word))
}

/// The word of a line with this number; none is empty.
pub(crate) fn word_at(words: &[List<u8>], word: usize) -> &[u8]
    ensures { result.now ≡ word_in words.now word }
{
    match words.get(word) {
        Some(word) => word.as_slice(),
        None => &[],
    }
}

/// The words of the line with this number; none where there is no such line.
pub(crate) fn words_of(lines: &[Line], line: usize) -> &[List<u8>]
    ensures { result.now ≡ words_at lines.now line }
{
    match lines.get(line) {
        Some(line) => line.words.as_slice(),
        None => &[],
    }
}
