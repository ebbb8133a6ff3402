//! Values, texts and refs, lists of them, and the end of a statement.
ghost use Rattle.std.specs.Prelude.{◌≡◌, ℕ, ◌∷◌, [], IfOk, OnOk, IsErrOf, List as Items};
ghost use Rattle.su_base.specs.declared.values.Value.{Value as AValue};
ghost use Rattle.su_query.specs.inside.ReadItems.{Several, ReadsValue, ReadsRef};
ghost use Rattle.su_lex.specs.declared.meaning.Symbol.{Symbol as ASymbol};
ghost use Rattle.su_query.specs.declared.refs.Ref.{Ref as ARef};

use crate::refs::Ref;
use su_base::{List, NoMemory, Row, Str, Value};
use su_lex::{LexEnd, Reader, Sign, Symbol};

/// Nothing is left.
pub(crate) fn expect_end(reader: &Reader) -> Result<(), LexEnd>
    ensures found { OnOk result (reader.now ≡ []) }
    ensures syntax { IsErrOf result LexEnd.Syntax → ¬ (reader.now ≡ []) }
{
    reader.end()
}

pub(crate) fn value(reader: &mut Reader) -> Result<Value, LexEnd>
    ensures found { IfOk result (λ v. ReadsValue v reader.old reader.new) }
    ensures syntax { IsErrOf result LexEnd.Syntax → (v : AValue) (r : Items ASymbol) → ¬ (ReadsValue v reader.old r) }
{
    match reader.next() {
        Some(Symbol::Int(n)) => Ok(Value::Int(n)),
        Some(Symbol::Text(content)) => Ok(Value::Text(content)),
        _ => Err(LexEnd::Syntax),
    }
}

pub(crate) fn text(reader: &mut Reader) -> Result<Str, LexEnd>
    ensures found { IfOk result (λ content. reader.old ≡ Symbol.Text content ∷ reader.new) }
    ensures syntax { IsErrOf result LexEnd.Syntax → (content : Items ℕ) (r : Items ASymbol) → ¬ (reader.old ≡ Symbol.Text content ∷ r) }
{
    match reader.next() {
        Some(Symbol::Text(content)) => Ok(content),
        _ => Err(LexEnd::Syntax),
    }
}

/// `A` or `t.A`
pub(crate) fn reference(reader: &mut Reader) -> Result<Ref, LexEnd>
    ensures found { IfOk result (λ ref. ReadsRef ref reader.old reader.new) }
    ensures syntax { IsErrOf result LexEnd.Syntax → (ref : ARef) (r : Items ASymbol) → ¬ (ReadsRef ref reader.old r) }
{
    let first = reader.name()?;
    if !reader.takes_sign(Sign::Dot) {
        return Ok(Ref {
            variable: None,
            attribute: first,
        });
    }
    let attribute = reader.name()?;
    if reader.takes_sign(Sign::Dot) {
        return Err(LexEnd::Syntax);
    }
    Ok(Ref {
        variable: Some(first),
        attribute,
    })
}

/// No values, with room for those that stand before a `)` at the end of the symbols: a row is stored as it
/// is read, and takes no more than its values.
fn room(reader: &Reader) -> Result<Row, NoMemory>
    ensures { IfOk result (λ row. row ≡ []) }
{
    let most = reader.len() / 2;
    Ok(List::from_vec(Vec::with_capacity(reader.alloc(), most)?))
}

/// value { "," value }
pub(crate) fn values(reader: &mut Reader) -> Result<Row, LexEnd>
    ensures found { IfOk result (λ vs. Several ReadsValue vs reader.old reader.new) }
    ensures syntax { IsErrOf result LexEnd.Syntax → (vs : Items AValue) (r : Items ASymbol) → ¬ (Several ReadsValue vs reader.old r) }
{
    let mut values = room(reader)?;
    values.push(value(reader)?)?;
    while reader.takes_sign(Sign::Comma) {
        values.push(value(reader)?)?;
    }
    Ok(values)
}

/// ref { "," ref }
pub(crate) fn references(reader: &mut Reader) -> Result<List<Ref>, LexEnd>
    ensures found { IfOk result (λ refs. Several ReadsRef refs reader.old reader.new) }
    ensures syntax { IsErrOf result LexEnd.Syntax → (refs : Items ARef) (r : Items ASymbol) → ¬ (Several ReadsRef refs reader.old r) }
{
    let mut references = List::new(reader.alloc());
    references.push(reference(reader)?)?;
    while reader.takes_sign(Sign::Comma) {
        references.push(reference(reader)?)?;
    }
    Ok(references)
}
