//! Lists in definitions: names in parentheses, and columns.
ghost use Rattle.std.specs.Prelude.{◌≡◌, ℕ, ◌∷◌, ◌++◌, IfOk, IsErrOf, List as Items};
ghost use Rattle.su_lex.specs.Names.{Begins};
ghost use Rattle.su_ddl.specs.Grammar.{in_parens, column_symbols, columns_symbols};
ghost use Rattle.su_lex.specs.Wordings.{kind_symbol};
ghost use Rattle.su_ddl.specs.inside.Columns.{ListsNoColumns};
ghost use Rattle.su_schema.specs.Entries.{column_names};
ghost use Rattle.su_base.specs.Name.{IsName, AreNames};
ghost use Rattle.su_lex.specs.declared.meaning.Symbol.{Symbol as ASymbol};
ghost use Rattle.su_base.specs.declared.values.Kind.{Kind as AKind};
ghost use Rattle.su_base.specs.declared.values.Column.{Column as AColumn};

use su_base::{Column, Kind, List, Str};
use su_lex::{LexEnd, Reader, Sign, Symbol};

/// "(" NAME { "," NAME } ")"
pub fn names_in_parens(reader: &mut Reader) -> Result<List<Str>, LexEnd>
    ensures found { IfOk result (λ ns. (reader.old ≡ in_parens ns reader.new) × AreNames ns) }
    ensures syntax { IsErrOf result LexEnd.Syntax → (ns : Items (Items ℕ)) (r : Items ASymbol) → AreNames ns → ¬ (reader.old ≡ in_parens ns r) }
{
    reader.expect_sign(Sign::Open)?;
    let names = reader.names()?;
    reader.expect_sign(Sign::Close)?;
    Ok(names)
}

/// "int" | "text"
pub fn kind(reader: &mut Reader) -> Result<Kind, LexEnd>
    ensures found { IfOk result (λ k. reader.old ≡ kind_symbol k ∷ reader.new) }
    ensures syntax { IsErrOf result LexEnd.Syntax → (k : AKind) → ¬ (Begins (kind_symbol k) reader.old) }
{
    if reader.takes_word("int") {
        return Ok(Kind::Int);
    }
    reader.expect_word("text")?;
    Ok(Kind::Text)
}

/// NAME kind
fn column(reader: &mut Reader) -> Result<Column, LexEnd>
    ensures found { IfOk result (λ c. (reader.old ≡ column_symbols c ++ reader.new) × IsName c.name) }
    ensures syntax { IsErrOf result LexEnd.Syntax → (c : AColumn) (r : Items ASymbol) → IsName c.name → ¬ (reader.old ≡ column_symbols c ++ r) }
{
    let name = reader.name()?;
    let kind = kind(reader)?;
    Ok(Column { name, kind })
}

/// NAME kind { "," NAME kind }
pub fn columns(reader: &mut Reader) -> Result<List<Column>, LexEnd>
    ensures found { IfOk result (λ cs. (reader.old ≡ columns_symbols cs ++ reader.new) × AreNames (column_names cs)) }
    ensures ends { IfOk result (λ _. ¬ (Begins (Symbol.Sign Sign.Comma) reader.new)) }
    ensures syntax { IsErrOf result LexEnd.Syntax → ListsNoColumns reader.old }
{
    let mut columns = List::new(reader.alloc());
    columns.push(column(reader)?)?;
    while reader.takes_sign(Sign::Comma) {
        columns.push(column(reader)?)?;
    }
    Ok(columns)
}
