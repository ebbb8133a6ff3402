//! Numbers, symbols and kinds, and lists of them.
ghost use Rattle.std.specs.Prelude.{◌≡◌, ◌≤◌, ◌++◌, ◌∷◌, ℕ, None, map, All, IfOk, MatchOption, List as Items};
ghost use Rattle.su_lex.specs.Names.{Begins};
ghost use Rattle.su_lex.specs.declared.meaning.Symbol.{Symbol as ASymbol};
ghost use Rattle.su_check.specs.NodeSymbols.{number, sym_symbol};
ghost use Rattle.su_lex.specs.Wordings.{kind_symbol};
ghost use Rattle.su_check.specs.Ranges.{IsByte, IsNamed};
ghost use Rattle.su_check.specs.inside.LineReaders.{AreOnly, AreOnlyKinds, Gives, Stops};

use crate::variables::variable;
use su_base::{Kind, List, NoMemory, Value};
use su_lex::{LexEnd, Reader, Symbol};
use su_tableau::Sym;

/// The number that comes next, if one that is at most this does. It stays.
fn number_at(reader: &Reader, most: u32) -> Option<u32>
    ensures found { MatchOption result ((n : ℕ) → n ≤ most → ¬ (Begins (number n) reader.now)) (λ n. Begins (number n) reader.now × (n ≤ most)) }
{
    match reader.peek() {
        Some(Symbol::Int(n)) if 0 <= *n && *n <= most as i64 => Some(*n as u32),
        _ => None,
    }
}

/// Goes past the number, if one that is at most this comes next.
pub fn takes_number(reader: &mut Reader, most: u32) -> Option<u32>
    ensures found { MatchOption result (reader.new ≡ reader.old) (λ n. (reader.old ≡ number n ∷ reader.new) × (n ≤ most)) }
    ensures none { result ≡ None → (n : ℕ) → n ≤ most → ¬ (Begins (number n) reader.old) }
{
    match number_at(reader, most) {
        Some(n) => match reader.next() {
            Some(_) => Some(n),
            None => None,
        },
        None => None,
    }
}

/// The number that must be next, at most this.
pub fn expect_number(reader: &mut Reader, most: u32) -> Result<u32, LexEnd>
    ensures found { IfOk result (λ n. (reader.old ≡ number n ∷ reader.new) × (n ≤ most)) }
    ensures only { (n : ℕ) (r : Items ASymbol) → n ≤ most → reader.old ≡ number n ∷ r → Gives result (λ m. (m ≡ n) × (reader.new ≡ r)) }
{
    match takes_number(reader, most) {
        Some(n) => Ok(n),
        None => Err(LexEnd::Syntax),
    }
}

/// The numbers that come next, as long as they are bytes.
pub fn bytes(reader: &mut Reader) -> Result<List<u8>, NoMemory>
    ensures found { IfOk result (λ ns. (reader.old ≡ map number ns ++ reader.new) × All IsByte ns) }
    ensures only { AreOnly number IsByte reader.old result reader.new }
{
    let mut numbers = List::new(reader.alloc());
    while let Some(n) = takes_number(reader, 255) {
        numbers.push(n as u8)?;
    }
    Ok(numbers)
}

/// The symbol of a tableau that comes next, if one does. It stays.
fn symbol_at(reader: &Reader) -> Result<Option<Sym>, NoMemory>
    ensures { IfOk result (λ o. MatchOption o (Stops sym_symbol IsNamed reader.now) (λ x. Begins (sym_symbol x) reader.now × IsNamed x)) }
{
    match reader.peek() {
        Some(Symbol::Int(n)) => Ok(Some(Sym::Const(Value::Int(*n)))),
        Some(Symbol::Text(content)) => {
            let content = content.copy(reader.alloc())?;
            Ok(Some(Sym::Const(Value::Text(content))))
        }
        Some(Symbol::Word(word)) => Ok(variable(reader.alloc(), word.as_str())?.map(Sym::Var)),
        Some(Symbol::Sign(_)) => Ok(None),
        None => Ok(None),
    }
}

/// Goes past the symbol of a tableau that comes next, if one does.
fn takes_symbol(reader: &mut Reader) -> Result<Option<Sym>, NoMemory>
    ensures found { IfOk result (λ o. MatchOption o (reader.new ≡ reader.old) (λ x. (reader.old ≡ sym_symbol x ∷ reader.new) × IsNamed x)) }
    ensures none { IfOk result (λ o. o ≡ None → Stops sym_symbol IsNamed reader.old) }
{
    match symbol_at(reader)? {
        Some(symbol) => match reader.next() {
            Some(_) => Ok(Some(symbol)),
            None => Ok(None),
        },
        None => Ok(None),
    }
}

/// The symbols of a tableau that come next.
pub fn symbols(reader: &mut Reader) -> Result<List<Sym>, NoMemory>
    ensures found { IfOk result (λ xs. (reader.old ≡ map sym_symbol xs ++ reader.new) × All IsNamed xs) }
    ensures only { AreOnly sym_symbol IsNamed reader.old result reader.new }
{
    let mut symbols = List::new(reader.alloc());
    while let Some(symbol) = takes_symbol(reader)? {
        symbols.push(symbol)?;
    }
    Ok(symbols)
}

/// The kind that comes next, if one does.
fn takes_kind(reader: &mut Reader) -> Option<Kind>
    ensures found { MatchOption result (reader.new ≡ reader.old) (λ k. reader.old ≡ kind_symbol k ∷ reader.new) }
    ensures none { result ≡ None → Stops kind_symbol (λ k. Unit {0}) reader.old }
{
    if reader.takes_word("int") {
        return Some(Kind::Int);
    }
    if reader.takes_word("text") {
        return Some(Kind::Text);
    }
    None
}

/// The kinds that come next.
pub fn kinds(reader: &mut Reader) -> Result<List<Kind>, NoMemory>
    ensures found { IfOk result (λ ks. reader.old ≡ map kind_symbol ks ++ reader.new) }
    ensures only { AreOnlyKinds reader.old result reader.new }
{
    let mut kinds = List::new(reader.alloc());
    while let Some(kind) = takes_kind(reader) {
        kinds.push(kind)?;
    }
    Ok(kinds)
}
