//! The definition that a text is, form by form.
ghost use Rattle.std.specs.Prelude.{◌≡◌, ◌∷◌, codes, IfOk, IsErrOf};
ghost use Rattle.su_ddl.specs.Grammar.{IsForm, IsDefinition};
ghost use Rattle.su_schema.specs.declared.definitions.Definition.{Definition as ADefinition};

use crate::lists::{columns, kind, names_in_parens};
use crate::pairing::pairs;
use std::alloc::Global;
use su_base::List;
use su_lex::{LexEnd, Reader, Sign, Symbol, symbols};
use su_schema::Definition;

/// "attribute" NAME kind, behind its first word
fn attribute(reader: &mut Reader) -> Result<Definition, LexEnd>
    ensures found { IfOk result (λ d. IsForm (Symbol.Word (codes "attribute") ∷ reader.old) d) }
    ensures syntax { IsErrOf result LexEnd.Syntax → (d : ADefinition) → ¬ (IsForm (Symbol.Word (codes "attribute") ∷ reader.old) d) }
{
    let name = reader.name()?;
    let kind = kind(reader)?;
    reader.end()?;
    Ok(Definition::Attribute { name, kind })
}

/// "relation" NAME "(" column { "," column } ")", behind its first word
fn relation(reader: &mut Reader) -> Result<Definition, LexEnd>
    ensures found { IfOk result (λ d. IsForm (Symbol.Word (codes "relation") ∷ reader.old) d) }
    ensures syntax { IsErrOf result LexEnd.Syntax → (d : ADefinition) → ¬ (IsForm (Symbol.Word (codes "relation") ∷ reader.old) d) }
{
    let name = reader.name()?;
    reader.expect_sign(Sign::Open)?;
    let columns = columns(reader)?;
    reader.expect_sign(Sign::Close)?;
    reader.end()?;
    Ok(Definition::Relation { name, columns })
}

/// "object" NAME "(" names ")" "from" NAME "(" names ")", behind its first word
fn object(reader: &mut Reader) -> Result<Definition, LexEnd>
    ensures found { IfOk result (λ d. IsForm (Symbol.Word (codes "object") ∷ reader.old) d) }
    ensures syntax { IsErrOf result LexEnd.Syntax → (d : ADefinition) → ¬ (IsForm (Symbol.Word (codes "object") ∷ reader.old) d) }
{
    let name = reader.name()?;
    let attributes = names_in_parens(reader)?;
    reader.expect_word("from")?;
    let relation = reader.name()?;
    let columns = names_in_parens(reader)?;
    reader.end()?;
    if attributes.len() != columns.len() {
        return Err(LexEnd::Syntax);
    }
    let pairs = pairs(reader.alloc(), attributes.as_slice(), columns.as_slice())?;
    Ok(Definition::Object {
        name,
        relation,
        pairs,
    })
}

/// "fd" names "->" names, behind its first word
fn fd(reader: &mut Reader) -> Result<Definition, LexEnd>
    ensures found { IfOk result (λ d. IsForm (Symbol.Word (codes "fd") ∷ reader.old) d) }
    ensures syntax { IsErrOf result LexEnd.Syntax → (d : ADefinition) → ¬ (IsForm (Symbol.Word (codes "fd") ∷ reader.old) d) }
{
    let left = reader.names()?;
    reader.expect_sign(Sign::Arrow)?;
    let right = reader.names()?;
    reader.end()?;
    Ok(Definition::Fd { left, right })
}

/// "maximal" "(" names ")", behind its first word
fn maximal(reader: &mut Reader) -> Result<Definition, LexEnd>
    ensures found { IfOk result (λ d. IsForm (Symbol.Word (codes "maximal") ∷ reader.old) d) }
    ensures syntax { IsErrOf result LexEnd.Syntax → (d : ADefinition) → ¬ (IsForm (Symbol.Word (codes "maximal") ∷ reader.old) d) }
{
    let objects = names_in_parens(reader)?;
    reader.end()?;
    Ok(Definition::Maximal { objects })
}

/// The definition that the symbols are. `Syntax` comes exactly where they are none, unless memory is wanting.
pub fn definition_of(alloc: Global, symbols: List<Symbol>) -> Result<Definition, LexEnd>
    ensures found { IfOk result (λ d. IsForm symbols d) }
    ensures syntax { IsErrOf result LexEnd.Syntax → (d : ADefinition) → ¬ (IsForm symbols d) }
{
    let mut reader = Reader::new(alloc, symbols);
    if reader.takes_word("attribute") {
        return attribute(&mut reader);
    }
    if reader.takes_word("relation") {
        return relation(&mut reader);
    }
    if reader.takes_word("object") {
        return object(&mut reader);
    }
    if reader.takes_word("fd") {
        return fd(&mut reader);
    }
    if reader.takes_word("maximal") {
        return maximal(&mut reader);
    }
    Err(LexEnd::Syntax)
}

/// The definition that a text is. `Syntax` comes exactly where it is none, unless memory is wanting.
pub fn definition(alloc: Global, text: &[u8]) -> Result<Definition, LexEnd>
    ensures definition { IfOk result (λ d. IsDefinition text.now d) }
    ensures only { IfOk result (λ d. (other : ADefinition) → IsDefinition text.now other → other ≡ d) }
    ensures syntax { IsErrOf result LexEnd.Syntax → (d : ADefinition) → ¬ (IsDefinition text.now d) }
{
    let symbols = symbols(alloc, text)?;
    definition_of(alloc, symbols)
}
