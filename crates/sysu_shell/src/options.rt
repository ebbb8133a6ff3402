//! Options among the words of the command line.
ghost use Rattle.std.specs.Prelude.{◌≡◌};
ghost use Rattle.sysu_shell.specs.Words.{count_of, is_option, takes_value};

use su_base::Str;

/// The number of workers, from 1 to 16, where the digits are its decimal.
pub(crate) fn count_of(digits: &[u8]) -> Option<u8>
    ensures { result ≡ count_of digits.now }
{
    match digits {
        [d] if b'1' <= *d && *d <= b'9' => Some(*d - b'0'),
        [b'1', d] if b'0' <= *d && *d <= b'6' => Some(*d - b'0' + 10),
        _ => None,
    }
}

/// Whether the word begins with two hyphens.
fn is_option(word: &[u8]) -> bool
    ensures { result ≡ is_option word.now }
{
    matches!(word, [b'-', b'-', ..])
}

/// Whether the word is an option with a value.
pub(crate) fn takes_value(word: &Str) -> bool
    ensures { result ≡ takes_value word.now }
{
    let text = word.as_str();
    is_option(text.as_bytes()) && text != "--frames"
}
