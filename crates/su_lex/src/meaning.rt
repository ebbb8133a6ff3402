//! A text as symbols: its tokens with the bytes of the words, and without their places.
ghost use Rattle.std.specs.Prelude.{◌≡◌, [], IfOk, IsErrOf, List as Items};
ghost use Rattle.su_base.specs.Name.{IsWord};
ghost use Rattle.su_lex.specs.Symbols.{Symbols, symbol_at};
ghost use Rattle.su_lex.specs.inside.Firsts.{HasNoFirstToken, IsFirstSymbol};
ghost use Rattle.su_lex.specs.declared.meaning.Symbol.{Symbol as ASymbol};

use crate::comments::after_blanks;
use crate::ends::LexEnd;
use crate::firsts::first;
use crate::kinds::TokenKind;
use crate::signs::Sign;
use std::alloc::Global;
use su_base::{List, NoMemory, Str};

/// What a token says, a word's bytes among it.
#[derive(PartialEq, Eq, Debug, Drop)]
pub enum Symbol {
    Word(Str),
    Int(i64),
    /// The content, without the quotes round it.
    Text(Str),
    Sign(Sign),
}

/// What a token says; a word says its bytes.
fn symbol_at(alloc: Global, kind: TokenKind, front: &[u8]) -> Result<Symbol, NoMemory>
    requires { kind ≡ TokenKind.Word → IsWord front.now }
    ensures { IfOk result (λ x. x ≡ symbol_at kind front.now) }
{
    match kind {
        TokenKind::Word => match str::from_utf8(front) {
            Ok(word) => Ok(Symbol::Word(Str::new(alloc, word)?)),
            Err(_) => unreachable!(),
        },
        TokenKind::Int(n) => Ok(Symbol::Int(n)),
        TokenKind::Text(content) => Ok(Symbol::Text(content)),
        TokenKind::Sign(sign) => Ok(Symbol::Sign(sign)),
    }
}

/// The first symbol of a text, and how many bytes it takes.
fn first_symbol(alloc: Global, text: &[u8]) -> Result<(Symbol, usize), LexEnd>
    ensures found { IfOk result (λ t. IsFirstSymbol text.now t.0 t.1) }
    ensures none { IsErrOf result LexEnd.Syntax → HasNoFirstToken text.now }
{
    let (kind, n) = first(alloc, text)?;
    let symbol = symbol_at(alloc, kind, &text[..n])?;
    Ok((symbol, n))
}

/// No symbols, with room for as many as an insert of two values has: most texts are that short.
fn few_at_first(alloc: Global) -> Result<List<Symbol>, NoMemory>
    ensures { IfOk result (λ xs. xs ≡ []) }
{
    Ok(List::from_vec(Vec::with_capacity(alloc, 8)?))
}

/// The symbols of a text, in order, made as the text is gone through.
pub fn symbols(alloc: Global, text: &[u8]) -> Result<List<Symbol>, LexEnd>
    ensures symbols { IfOk result (λ xs. Symbols text.now xs) }
    ensures syntax { IsErrOf result LexEnd.Syntax → (xs : Items ASymbol) → ¬ (Symbols text.now xs) }
{
    let mut symbols = few_at_first(alloc)?;
    let mut rest = after_blanks(text);
    while !rest.is_empty() {
        let (symbol, n) = first_symbol(alloc, rest)?;
        symbols.push(symbol)?;
        rest = after_blanks(&rest[n..]);
    }
    Ok(symbols)
}
