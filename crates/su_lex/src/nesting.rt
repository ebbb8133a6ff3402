//! How deep parentheses stand.
ghost use Rattle.std.specs.Prelude.{◌≡◌, ◌↔◌, IsTrue};
ghost use Rattle.su_lex.specs.Nesting.{is_open, is_close, IsDeep};

use crate::meaning::Symbol;
use crate::signs::Sign;

fn is_open(symbol: &Symbol) -> bool
    ensures { result ≡ is_open symbol.now }
{
    matches!(symbol, Symbol::Sign(Sign::Open))
}

fn is_close(symbol: &Symbol) -> bool
    ensures { result ≡ is_close symbol.now }
{
    matches!(symbol, Symbol::Sign(Sign::Close))
}

/// Whether some front has over 64 more opening parentheses than closing ones.
pub fn nests_too_deep(symbols: &[Symbol]) -> bool
    ensures { IsTrue result ↔ IsDeep symbols.now }
{
    let mut opened = 0usize;
    let mut closed = 0usize;
    for symbol in symbols {
        if is_open(symbol) {
            opened += 1;
        }
        if is_close(symbol) {
            closed += 1;
        }
        if opened > closed && opened - closed > 64 {
            return true;
        }
    }
    false
}
