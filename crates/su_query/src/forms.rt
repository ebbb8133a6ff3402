//! The forms of statements. Each statement is read to the end of the symbols.
ghost use Rattle.std.specs.Prelude.{◌≡◌, ℕ, ◌∷◌, codes, IfOk, IsErrOf, List as Items};
ghost use Rattle.su_base.specs.declared.values.Value.{Value as AValue};
ghost use Rattle.su_lex.specs.declared.meaning.Symbol.{Symbol as ASymbol};
ghost use Rattle.su_lex.specs.declared.meaning.Symbol.TheVariants.{Word};
ghost use Rattle.su_query.specs.inside.Fronts.{opens_second};
ghost use Rattle.su_query.specs.inside.ReadRelations.{RowForm, ConditionForm, FileForm, NamesForm};
ghost use Rattle.su_query.specs.inside.ReadQueries.{ReadsWhere, ReadsQuery, ReadsEnclosed, PairForm, QueryForm};
ghost use Rattle.su_query.specs.inside.ReadForms.{ReadsForm};
ghost use Rattle.su_query.specs.Refs.{NamedCond as ACond};
ghost use Rattle.su_query.specs.declared.statements.Query.{Query as AQuery};
ghost use Rattle.su_query.specs.declared.statements.Statement.{Statement as AStatement};

use crate::conditions::NamedCond;
use crate::conds::cond;
use crate::lists::{expect_end, references, text, values};
use crate::mentions::are_columns;
use crate::statements::{Query, Statement};
use su_base::{List, Row, Str};
use su_lex::{LexEnd, Reader, Sign, Symbol};

/// NAME "(" values ")"
fn row_form(reader: &mut Reader) -> Result<(Str, Row), LexEnd>
    ensures found { IfOk result (λ p. RowForm p.0 p.1 reader.old) }
    ensures syntax { IsErrOf result LexEnd.Syntax → (relation : Items ℕ) (row : Items AValue) → RowForm relation row reader.old → ⊥ }
{
    let relation = reader.name()?;
    reader.expect_sign(Sign::Open)?;
    let row = values(reader)?;
    reader.expect_sign(Sign::Close)?;
    expect_end(reader)?;
    Ok((relation, row))
}

/// NAME "where" cond, each ref a column
fn condition_form(reader: &mut Reader) -> Result<(Str, NamedCond), LexEnd>
    ensures found { IfOk result (λ p. ConditionForm p.0 p.1 reader.old) }
    ensures syntax { IsErrOf result LexEnd.Syntax → (relation : Items ℕ) (cond : ACond) → ConditionForm relation cond reader.old → ⊥ }
{
    let relation = reader.name()?;
    reader.expect_word("where")?;
    let cond = cond(reader)?;
    expect_end(reader)?;
    if !are_columns(reader.alloc(), &cond)? {
        return Err(LexEnd::Syntax);
    }
    Ok((relation, cond))
}

/// NAME "from" TEXT
fn file_form(reader: &mut Reader) -> Result<(Str, Str), LexEnd>
    ensures found { IfOk result (λ p. FileForm p.0 p.1 reader.old) }
    ensures syntax { IsErrOf result LexEnd.Syntax → (relation : Items ℕ) (file : Items ℕ) → FileForm relation file reader.old → ⊥ }
{
    let relation = reader.name()?;
    reader.expect_word("from")?;
    let file = text(reader)?;
    expect_end(reader)?;
    Ok((relation, file))
}

/// "(" names ")"
fn names_form(reader: &mut Reader) -> Result<List<Str>, LexEnd>
    ensures found { IfOk result (λ names. NamesForm names reader.old) }
    ensures syntax { IsErrOf result LexEnd.Syntax → (names : Items (Items ℕ)) → NamesForm names reader.old → ⊥ }
{
    reader.expect_sign(Sign::Open)?;
    let names = reader.names()?;
    reader.expect_sign(Sign::Close)?;
    expect_end(reader)?;
    Ok(names)
}

/// [ "where" cond ]
fn wanted(reader: &mut Reader) -> Result<NamedCond, LexEnd>
    ensures found { IfOk result (λ cond. ReadsWhere cond reader.old reader.new) }
    ensures syntax { IsErrOf result LexEnd.Syntax → (cond : ACond) (r : Items ASymbol) → ReadsWhere cond reader.old r → ⊥ }
{
    if !reader.takes_word("where") {
        return Ok(NamedCond::All(List::new(reader.alloc())));
    }
    cond(reader)
}

/// "retrieve" "(" refs ")" [ "where" cond ]
fn query(reader: &mut Reader) -> Result<Query, LexEnd>
    ensures found { IfOk result (λ q. ReadsQuery q reader.old reader.new) }
    ensures syntax { IsErrOf result LexEnd.Syntax → (q : AQuery) (r : Items ASymbol) → ReadsQuery q reader.old r → ⊥ }
{
    reader.expect_word("retrieve")?;
    reader.expect_sign(Sign::Open)?;
    let outputs = references(reader)?;
    reader.expect_sign(Sign::Close)?;
    let cond = wanted(reader)?;
    Ok(Query { outputs, cond })
}

/// A query alone
fn query_form(reader: &mut Reader) -> Result<Query, LexEnd>
    ensures found { IfOk result (λ q. QueryForm q reader.old) }
    ensures syntax { IsErrOf result LexEnd.Syntax → (q : AQuery) → QueryForm q reader.old → ⊥ }
{
    let query = query(reader)?;
    expect_end(reader)?;
    Ok(query)
}

/// "(" query ")"
fn enclosed(reader: &mut Reader) -> Result<Query, LexEnd>
    ensures found { IfOk result (λ q. ReadsEnclosed q reader.old reader.new) }
    ensures syntax { IsErrOf result LexEnd.Syntax → (q : AQuery) (r : Items ASymbol) → ReadsEnclosed q reader.old r → ⊥ }
{
    reader.expect_sign(Sign::Open)?;
    let query = query(reader)?;
    reader.expect_sign(Sign::Close)?;
    Ok(query)
}

/// "(" query ")" "with" "(" query ")"
fn pair_form(reader: &mut Reader) -> Result<(Query, Query), LexEnd>
    ensures found { IfOk result (λ p. PairForm p.0 p.1 reader.old) }
    ensures syntax { IsErrOf result LexEnd.Syntax → (first second : AQuery) → PairForm first second reader.old → ⊥ }
{
    let first = enclosed(reader)?;
    reader.expect_word("with")?;
    let second = enclosed(reader)?;
    expect_end(reader)?;
    Ok((first, second))
}

fn opens_second(reader: &Reader) -> bool
    ensures { result ≡ opens_second reader.now }
{
    match reader.peek_second() {
        Some(Symbol::Sign(Sign::Open)) => true,
        _ => false,
    }
}

fn insert(reader: &mut Reader) -> Result<Statement, LexEnd>
    ensures found { IfOk result (λ st. ReadsForm st (Word (codes "insert") ∷ reader.old)) }
    ensures syntax { IsErrOf result LexEnd.Syntax → (st : AStatement) → ReadsForm st (Word (codes "insert") ∷ reader.old) → ⊥ }
{
    let (relation, row) = row_form(reader)?;
    Ok(Statement::Insert { relation, row })
}

fn delete(reader: &mut Reader) -> Result<Statement, LexEnd>
    ensures found { IfOk result (λ st. ReadsForm st (Word (codes "delete") ∷ reader.old)) }
    ensures syntax { IsErrOf result LexEnd.Syntax → (st : AStatement) → ReadsForm st (Word (codes "delete") ∷ reader.old) → ⊥ }
{
    if opens_second(reader) {
        let (relation, row) = row_form(reader)?;
        return Ok(Statement::Delete { relation, row });
    }
    let (relation, cond) = condition_form(reader)?;
    Ok(Statement::DeleteWhere { relation, cond })
}

fn load(reader: &mut Reader) -> Result<Statement, LexEnd>
    ensures found { IfOk result (λ st. ReadsForm st (Word (codes "load") ∷ reader.old)) }
    ensures syntax { IsErrOf result LexEnd.Syntax → (st : AStatement) → ReadsForm st (Word (codes "load") ∷ reader.old) → ⊥ }
{
    let (relation, file) = file_form(reader)?;
    Ok(Statement::Load { relation, file })
}

fn print(reader: &mut Reader) -> Result<Statement, LexEnd>
    ensures found { IfOk result (λ st. ReadsForm st (Word (codes "print") ∷ reader.old)) }
    ensures syntax { IsErrOf result LexEnd.Syntax → (st : AStatement) → ReadsForm st (Word (codes "print") ∷ reader.old) → ⊥ }
{
    let relation = reader.name()?;
    expect_end(reader)?;
    Ok(Statement::Print { relation })
}

fn schema(reader: &mut Reader) -> Result<Statement, LexEnd>
    ensures found { IfOk result (λ st. ReadsForm st (Word (codes "schema") ∷ reader.old)) }
    ensures syntax { IsErrOf result LexEnd.Syntax → (st : AStatement) → ReadsForm st (Word (codes "schema") ∷ reader.old) → ⊥ }
{
    expect_end(reader)?;
    Ok(Statement::Schema)
}

fn closure(reader: &mut Reader) -> Result<Statement, LexEnd>
    ensures found { IfOk result (λ st. ReadsForm st (Word (codes "closure") ∷ reader.old)) }
    ensures syntax { IsErrOf result LexEnd.Syntax → (st : AStatement) → ReadsForm st (Word (codes "closure") ∷ reader.old) → ⊥ }
{
    let attributes = names_form(reader)?;
    Ok(Statement::Closure { attributes })
}

fn certify(reader: &mut Reader) -> Result<Statement, LexEnd>
    ensures found { IfOk result (λ st. ReadsForm st (Word (codes "explain") ∷ Word (codes "with") ∷ reader.old)) }
    ensures syntax { IsErrOf result LexEnd.Syntax → (st : AStatement) → ¬ ReadsForm st (Word (codes "explain") ∷ Word (codes "with") ∷ reader.old) }
{
    let query = query_form(reader)?;
    Ok(Statement::Certify(query))
}

fn support(reader: &mut Reader) -> Result<Statement, LexEnd>
    ensures found { IfOk result (λ st. ReadsForm st (Word (codes "explain") ∷ Word (codes "from") ∷ reader.old)) }
    ensures syntax { IsErrOf result LexEnd.Syntax → (st : AStatement) → ¬ ReadsForm st (Word (codes "explain") ∷ Word (codes "from") ∷ reader.old) }
{
    let query = query_form(reader)?;
    Ok(Statement::Support(query))
}

fn explain(reader: &mut Reader) -> Result<Statement, LexEnd>
    ensures found { IfOk result (λ st. ReadsForm st (Word (codes "explain") ∷ reader.old)) }
    ensures syntax { IsErrOf result LexEnd.Syntax → (st : AStatement) → ReadsForm st (Word (codes "explain") ∷ reader.old) → ⊥ }
{
    if reader.takes_word("with") {
        return certify(reader);
    }
    if reader.takes_word("from") {
        return support(reader);
    }
    let query = query_form(reader)?;
    Ok(Statement::Explain(query))
}

fn compare(reader: &mut Reader) -> Result<Statement, LexEnd>
    ensures found { IfOk result (λ st. ReadsForm st (Word (codes "compare") ∷ reader.old)) }
    ensures syntax { IsErrOf result LexEnd.Syntax → (st : AStatement) → ReadsForm st (Word (codes "compare") ∷ reader.old) → ⊥ }
{
    let (first, second) = pair_form(reader)?;
    Ok(Statement::Compare { first, second })
}

fn window(reader: &mut Reader) -> Result<Statement, LexEnd>
    ensures found { IfOk result (λ st. ReadsForm st (Word (codes "window") ∷ reader.old)) }
    ensures syntax { IsErrOf result LexEnd.Syntax → (st : AStatement) → ReadsForm st (Word (codes "window") ∷ reader.old) → ⊥ }
{
    let attributes = names_form(reader)?;
    Ok(Statement::Window { attributes })
}

/// The statement that the symbols are.
pub(crate) fn statement(reader: &mut Reader) -> Result<Statement, LexEnd>
    ensures found { IfOk result (λ st. ReadsForm st reader.old) }
    ensures syntax { IsErrOf result LexEnd.Syntax → (st : AStatement) → ReadsForm st reader.old → ⊥ }
{
    if reader.takes_word("insert") {
        return insert(reader);
    }
    if reader.takes_word("delete") {
        return delete(reader);
    }
    if reader.takes_word("load") {
        return load(reader);
    }
    if reader.takes_word("print") {
        return print(reader);
    }
    if reader.takes_word("schema") {
        return schema(reader);
    }
    if reader.takes_word("closure") {
        return closure(reader);
    }
    if reader.takes_word("explain") {
        return explain(reader);
    }
    if reader.takes_word("compare") {
        return compare(reader);
    }
    if reader.takes_word("window") {
        return window(reader);
    }
    let query = query_form(reader)?;
    Ok(Statement::Retrieve(query))
}
