//! Words, kinds and signs as symbols, at the end of a list.
ghost use Rattle.std.specs.Prelude.{◌≡◌, ◌∷◌, ◌++◌, [], OnErr, OnOk};
ghost use Rattle.su_lex.specs.Wordings.{kind_symbol};

use crate::meaning::Symbol;
use crate::signs::Sign;
use std::alloc::Global;
use su_base::{Kind, List, NoMemory, Str};

/// Adds the word as a symbol.
pub fn push_word(alloc: Global, out: &mut List<Symbol>, word: &str) -> Result<(), NoMemory>
    ensures ok { OnOk result (out.new ≡ out.old ++ Symbol.Word word.now ∷ []) }
    ensures unchanged { OnErr result (out.new ≡ out.old) }
{
    out.push(Symbol::Word(Str::new(alloc, word)?))?;
    Ok(())
}

/// Adds the word of the kind as a symbol.
pub fn push_kind(alloc: Global, out: &mut List<Symbol>, kind: Kind) -> Result<(), NoMemory>
    ensures ok { OnOk result (out.new ≡ out.old ++ kind_symbol kind ∷ []) }
    ensures unchanged { OnErr result (out.new ≡ out.old) }
{
    match kind {
        Kind::Int => push_word(alloc, out, "int"),
        Kind::Text => push_word(alloc, out, "text"),
    }
}

/// Adds the sign as a symbol.
pub fn push_sign(out: &mut List<Symbol>, sign: Sign) -> Result<(), NoMemory>
    ensures ok { OnOk result (out.new ≡ out.old ++ Symbol.Sign sign ∷ []) }
    ensures unchanged { OnErr result (out.new ≡ out.old) }
{
    out.push(Symbol::Sign(sign))?;
    Ok(())
}
