//! How symbols are written: one space between two, but for parentheses, commas and dots.
ghost use Rattle.std.specs.Prelude.{◌≡◌, [], ◌∷◌, ◌++◌, ◌||◌, OnErr, OnOk, not, if◌then◌else◌};
ghost use Rattle.su_lex.specs.AddedFronts.{AddsFront};
ghost use Rattle.su_lex.specs.TokenForms.{quoted, sign_bytes, twice};
ghost use Rattle.su_lex.specs.Spelling.{closes, opens, spaced, spelled};
ghost use Rattle.su_lex.specs.Wordings.{numbers_text};

use crate::meaning::Symbol;
use crate::signs::Sign;
use std::alloc::Global;
use su_base::NoMemory;
use su_base::parts::{push, push_number};

fn opens(symbol: &Symbol) -> bool
    ensures { result ≡ opens symbol.now }
{
    match symbol {
        Symbol::Sign(Sign::Open) | Symbol::Sign(Sign::Dot) => true,
        _ => false,
    }
}

fn closes(symbol: &Symbol) -> bool
    ensures { result ≡ closes symbol.now }
{
    match symbol {
        Symbol::Sign(Sign::Close) | Symbol::Sign(Sign::Comma) | Symbol::Sign(Sign::Dot) => true,
        _ => false,
    }
}

fn push_bytes(out: &mut Vec<u8>, bytes: &[u8]) -> Result<(), NoMemory>
    ensures ok { OnOk result (out.new.items ≡ out.old.items ++ bytes.now) }
    ensures unchanged { OnErr result (out.new.items ≡ out.old.items) }
{
    out.extend_from_slice(bytes)?;
    Ok(())
}

fn push_twice(out: &mut Vec<u8>, b: u8) -> Result<(), NoMemory>
    ensures ok { OnOk result (out.new.items ≡ out.old.items ++ twice b) }
    ensures unchanged { OnErr result (out.new.items ≡ out.old.items) }
{
    if b == b'\'' {
        return push_bytes(out, b"''");
    }
    push_bytes(out, &[b])
}

fn push_quoted(out: &mut Vec<u8>, content: &[u8]) -> Result<(), NoMemory>
    ensures ok { OnOk result (out.new.items ≡ out.old.items ++ quoted content.now) }
    ensures front { OnErr result (AddsFront out.old.items out.new.items (quoted content.now)) }
{
    push_bytes(out, b"'")?;
    for b in content {
        push_twice(out, *b)?;
    }
    push_bytes(out, b"'")
}

fn bytes_of(sign: Sign) -> &'static [u8]
    ensures { result.now ≡ sign_bytes sign }
{
    match sign {
        Sign::Open => b"(",
        Sign::Close => b")",
        Sign::Comma => b",",
        Sign::Dot => b".",
        Sign::Arrow => b"->",
        Sign::Equal => b"=",
        Sign::NotEqual => b"!=",
        Sign::Less => b"<",
        Sign::LessEqual => b"<=",
        Sign::Greater => b">",
        Sign::GreaterEqual => b">=",
    }
}

/// Adds one symbol as it is written, at the end of `out`.
pub fn push_symbol(alloc: Global, out: &mut Vec<u8>, symbol: &Symbol) -> Result<(), NoMemory>
    ensures ok { OnOk result (out.new.items ≡ out.old.items ++ spelled symbol.now) }
    ensures front { OnErr result (AddsFront out.old.items out.new.items (spelled symbol.now)) }
{
    match symbol {
        Symbol::Word(word) => push_bytes(out, word.as_str().as_bytes()),
        Symbol::Int(n) => {
            let digits = n.to_string(alloc)?;
            push_bytes(out, digits.as_bytes())
        }
        Symbol::Text(content) => push_quoted(out, content.as_str().as_bytes()),
        Symbol::Sign(sign) => push_bytes(out, bytes_of(*sign)),
    }
}

fn push_space_if(out: &mut Vec<u8>, wanted: bool) -> Result<(), NoMemory>
    ensures ok { OnOk result (out.new.items ≡ out.old.items ++ (if wanted then 32 ∷ [] else [])) }
    ensures unchanged { OnErr result (out.new.items ≡ out.old.items) }
{
    if wanted {
        return push_bytes(out, b" ");
    }
    Ok(())
}

fn wants_space(tight: bool, symbol: &Symbol) -> bool
    ensures { result ≡ not (tight || closes symbol.now) }
{
    !(tight || closes(symbol))
}

/// Adds the symbols as they are written in shown statements, at the end of `out`.
pub fn push_spaced(alloc: Global, out: &mut Vec<u8>, symbols: &[Symbol]) -> Result<(), NoMemory>
    ensures ok { OnOk result (out.new.items ≡ out.old.items ++ spaced symbols.now) }
    ensures front { OnErr result (AddsFront out.old.items out.new.items (spaced symbols.now)) }
{
    let mut tight = true;
    for symbol in symbols {
        push_space_if(out, wants_space(tight, symbol))?;
        push_symbol(alloc, out, symbol)?;
        tight = opens(symbol);
    }
    Ok(())
}

/// Adds each number behind a space, at the end of `out`.
pub fn push_numbers(alloc: Global, out: &mut Vec<u8>, numbers: &[u8]) -> Result<(), NoMemory>
    ensures { OnOk result (out.new.items ≡ out.old.items ++ numbers_text numbers.now) }
{
    for number in numbers {
        push(out, " ")?;
        push_number(alloc, out, *number as u64)?;
    }
    Ok(())
}
