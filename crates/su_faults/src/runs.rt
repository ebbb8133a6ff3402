//! Runs of bytes, and white space.
ghost use Rattle.std.specs.Prelude.{◌≡◌, ◌≤◌, length, position, not, ◌==◌};
ghost use Rattle.std.specs.List.{prefix_len};
ghost use Rattle.su_base.specs.Name.{is_letter_or_digit};
ghost use Rattle.su_lex.specs.Blanks.{is_space};

use su_base::letter_or_digit;

pub fn space(b: u8) -> bool
    ensures { result ≡ is_space b }
{
    b == b' ' || b == b'\t' || b == b'\n' || b == b'\r'
}

/// The place of the first byte that belongs to no word.
fn first_other(text: &[u8]) -> Option<usize>
    ensures { result ≡ position (λ b. not (is_letter_or_digit b)) text.now }
{
    text.iter().position(|b| !letter_or_digit(*b))
}

/// How many letters, digits and `_` stand at the front.
pub fn word_bytes(text: &[u8]) -> usize
    ensures count { result ≡ prefix_len is_letter_or_digit text.now }
    ensures within { result ≤ length text.now }
{
    match first_other(text) {
        Some(i) => i,
        None => text.len(),
    }
}

fn first_line_feed(text: &[u8]) -> Option<usize>
    ensures { result ≡ position (λ b. not (not (b == 10))) text.now }
{
    text.iter().position(|b| *b == b'\n')
}

/// How many bytes stand before the first line feed, or the end.
pub fn line_bytes(text: &[u8]) -> usize
    ensures count { result ≡ prefix_len (λ b. not (b == 10)) text.now }
    ensures within { result ≤ length text.now }
{
    match first_line_feed(text) {
        Some(i) => i,
        None => text.len(),
    }
}
