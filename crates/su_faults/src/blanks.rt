//! White space and comments, which may stand between tokens.
ghost use Rattle.std.specs.Prelude.{◌≡◌, ◌≤◌, length, true, false};
ghost use Rattle.su_lex.specs.Blanks.{is_space, begins, begins_comment, Comment, Gap};

use crate::runs::{line_bytes, space};

pub fn is_comment(text: &[u8]) -> bool
    ensures { result ≡ begins_comment text.now }
{
    match text {
        [b'-', b'-', ..] => true,
        _ => false,
    }
}

/// What follows the comment at the front.
pub fn after_comment(text: &[u8]) -> &[u8]
    requires { begins_comment text.now ≡ true }
    ensures behind { Comment text.now result.now }
    ensures within { length result.now ≤ length text.now }
{
    let behind = &text[2..];
    &behind[line_bytes(behind)..]
}

/// What follows the white space and comments at the front.
pub fn after_blanks(text: &[u8]) -> &[u8]
    ensures behind { Gap text.now result.now }
    ensures no_space { begins is_space result.now ≡ false }
    ensures no_comment { begins_comment result.now ≡ false }
    ensures within { length result.now ≤ length text.now }
{
    let mut rest = text;
    while let [b, behind @ ..] = rest {
        if space(*b) {
            rest = behind;
        } else if is_comment(rest) {
            rest = after_comment(rest);
        } else {
            return rest;
        }
    }
    rest
}
