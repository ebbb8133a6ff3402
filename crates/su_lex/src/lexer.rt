//! The tokens of a text, from the left, each the longest.
ghost use Rattle.std.specs.Prelude.{◌≡◌, IfOk, IsErrOf, All, List as Items};
ghost use Rattle.su_lex.specs.Tokens.{Tokens, InText};
ghost use Rattle.su_lex.specs.declared.kinds.Token.{Token as AToken};

use crate::comments::after_blanks;
use crate::ends::LexEnd;
use crate::firsts::first;
use crate::kinds::Token;
use crate::spans::Span;
use std::alloc::Global;
use su_base::List;

/// The tokens of a text, in order.
pub fn tokens(alloc: Global, text: &[u8]) -> Result<List<Token>, LexEnd>
    ensures tokens { IfOk result (λ ts. Tokens text.now ts) }
    ensures only { IfOk result (λ ts. (others : Items AToken) → Tokens text.now others → others ≡ ts) }
    ensures within { IfOk result (λ ts. All (InText text.now) ts) }
    ensures syntax { IsErrOf result LexEnd.Syntax → (ts : Items AToken) → ¬ (Tokens text.now ts) }
{
    let mut tokens = List::new(alloc);
    let mut rest = after_blanks(text);
    while !rest.is_empty() {
        let (kind, n) = first(alloc, rest)?;
        let start = text.len() - rest.len();
        let span = Span {
            start,
            end: start + n,
        };
        tokens.push(Token { kind, span })?;
        rest = after_blanks(&rest[n..]);
    }
    Ok(tokens)
}
