//! Statements as text.
ghost use Rattle.std.specs.Prelude.{◌≡◌, [], ◌∷◌, ◌++◌, map, IfOk, OnOk};
ghost use Rattle.su_lex.specs.Names.{names_symbols};
ghost use Rattle.su_lex.specs.Spelling.{spaced};
ghost use Rattle.su_query.specs.StatementTexts.{ReadsAgain};
ghost use Rattle.su_query.specs.ShownConditions.{cond_symbols, joined, shown_cond};
ghost use Rattle.su_lex.specs.Wordings.{in_parens};
ghost use Rattle.su_query.specs.Shown.{is_nothing, query_symbols, query_text, statement_symbols, statement_text, where_symbols};
ghost use Rattle.su_query.specs.ShownParts.{comparison_symbols, values_symbols};

use crate::conditions::{Comparison, NamedCond};
use crate::pushing::{
    push_names, push_op, push_operand, push_refs, push_sign_if, push_values, push_word_if,
};
use crate::statements::{Query, Statement};
use std::alloc::Global;
use su_base::{List, NoMemory, Str, Value};
use su_lex::{Sign, Symbol, push_sign, push_spaced, push_word};

fn is_many(cond: &NamedCond) -> bool
    ensures { result ≡ (shown_cond cond.now).many }
{
    match cond {
        NamedCond::All(_) | NamedCond::Any(_) => true,
        NamedCond::Not(_) | NamedCond::Compare(_) => false,
    }
}

fn is_compare(cond: &NamedCond) -> bool
    ensures { result ≡ (shown_cond cond.now).compare }
{
    match cond {
        NamedCond::Compare(_) => true,
        NamedCond::Not(_) | NamedCond::All(_) | NamedCond::Any(_) => false,
    }
}

fn is_nothing(cond: &NamedCond) -> bool
    ensures { result ≡ is_nothing cond.now }
{
    match cond {
        NamedCond::All(parts) => parts.is_empty(),
        NamedCond::Compare(_) | NamedCond::Not(_) | NamedCond::Any(_) => false,
    }
}

fn push_comparison(
    alloc: Global,
    out: &mut List<Symbol>,
    comparison: &Comparison,
) -> Result<(), NoMemory>
    ensures { OnOk result (out.new ≡ out.old ++ comparison_symbols comparison.now) }
{
    push_operand(alloc, out, &comparison.left)?;
    push_op(out, comparison.op)?;
    push_operand(alloc, out, &comparison.right)
}

/// Parentheses stand round parts that are themselves all or any of parts, and behind `not` round
/// all but a comparison.
#[cycle(show)]
fn push_cond(alloc: Global, out: &mut List<Symbol>, cond: &NamedCond) -> Result<(), NoMemory>
    ensures { OnOk result (out.new ≡ out.old ++ cond_symbols cond.now) }
{
    match cond {
        NamedCond::Compare(comparison) => push_comparison(alloc, out, comparison),
        NamedCond::Not(part) => {
            push_word(alloc, out, "not")?;
            let wrapped = !is_compare(part.get());
            push_sign_if(out, wrapped, Sign::Open)?;
            push_cond(alloc, out, part.get())?;
            push_sign_if(out, wrapped, Sign::Close)
        }
        NamedCond::All(parts) => push_parts(alloc, out, "and", parts.as_slice()),
        NamedCond::Any(parts) => push_parts(alloc, out, "or", parts.as_slice()),
    }
}

#[cycle(show)]
fn push_parts(
    alloc: Global,
    out: &mut List<Symbol>,
    word: &str,
    parts: &[NamedCond],
) -> Result<(), NoMemory>
    ensures { OnOk result (out.new ≡ out.old ++ joined (Symbol.Word word.now) (map shown_cond parts.now)) }
{
    for (i, part) in parts.iter().enumerate() {
        push_word_if(alloc, out, i > 0, word)?;
        let wrapped = is_many(part);
        push_sign_if(out, wrapped, Sign::Open)?;
        push_cond(alloc, out, part)?;
        push_sign_if(out, wrapped, Sign::Close)?;
    }
    Ok(())
}

/// Adds "(" value { "," value } ")" at the end of `out`.
pub fn push_row(alloc: Global, out: &mut List<Symbol>, values: &[Value]) -> Result<(), NoMemory>
    ensures { OnOk result (out.new ≡ out.old ++ in_parens (values_symbols values.now)) }
{
    push_sign(out, Sign::Open)?;
    push_values(alloc, out, values)?;
    push_sign(out, Sign::Close)
}

fn push_where(alloc: Global, out: &mut List<Symbol>, cond: &NamedCond) -> Result<(), NoMemory>
    ensures { OnOk result (out.new ≡ out.old ++ where_symbols cond.now) }
{
    if is_nothing(cond) {
        return Ok(());
    }
    push_word(alloc, out, "where")?;
    push_cond(alloc, out, cond)
}

fn push_query(alloc: Global, out: &mut List<Symbol>, query: &Query) -> Result<(), NoMemory>
    ensures { OnOk result (out.new ≡ out.old ++ query_symbols query.now) }
{
    push_word(alloc, out, "retrieve")?;
    push_sign(out, Sign::Open)?;
    push_refs(alloc, out, query.outputs.as_slice())?;
    push_sign(out, Sign::Close)?;
    push_where(alloc, out, &query.cond)
}

/// Two words.
fn push_head(
    alloc: Global,
    out: &mut List<Symbol>,
    word: &str,
    relation: &Str,
) -> Result<(), NoMemory>
    ensures { OnOk result (out.new ≡ out.old ++ Symbol.Word word.now ∷ Symbol.Word relation.now ∷ []) }
{
    push_word(alloc, out, word)?;
    push_word(alloc, out, relation.as_str())
}

fn push_delete_where(
    alloc: Global,
    out: &mut List<Symbol>,
    relation: &Str,
    cond: &NamedCond,
) -> Result<(), NoMemory>
    ensures { OnOk result (out.new ≡ out.old ++ statement_symbols (Statement.DeleteWhere relation.now cond.now)) }
{
    push_head(alloc, out, "delete", relation)?;
    push_word(alloc, out, "where")?;
    push_cond(alloc, out, cond)
}

fn push_load(
    alloc: Global,
    out: &mut List<Symbol>,
    relation: &Str,
    file: &Str,
) -> Result<(), NoMemory>
    ensures { OnOk result (out.new ≡ out.old ++ statement_symbols (Statement.Load relation.now file.now)) }
{
    push_head(alloc, out, "load", relation)?;
    push_word(alloc, out, "from")?;
    out.push(Symbol::Text(file.copy(alloc)?))?;
    Ok(())
}

/// A word, and names in parentheses.
fn push_named(
    alloc: Global,
    out: &mut List<Symbol>,
    word: &str,
    names: &[Str],
) -> Result<(), NoMemory>
    ensures { OnOk result (out.new ≡ out.old ++ Symbol.Word word.now ∷ in_parens (names_symbols names.now)) }
{
    push_word(alloc, out, word)?;
    push_sign(out, Sign::Open)?;
    push_names(alloc, out, names)?;
    push_sign(out, Sign::Close)
}

fn push_enclosed(alloc: Global, out: &mut List<Symbol>, query: &Query) -> Result<(), NoMemory>
    ensures { OnOk result (out.new ≡ out.old ++ in_parens (query_symbols query.now)) }
{
    push_sign(out, Sign::Open)?;
    push_query(alloc, out, query)?;
    push_sign(out, Sign::Close)
}

fn push_compare(
    alloc: Global,
    out: &mut List<Symbol>,
    first: &Query,
    second: &Query,
) -> Result<(), NoMemory>
    ensures { OnOk result (out.new ≡ out.old ++ statement_symbols (Statement.Compare first.now second.now)) }
{
    push_word(alloc, out, "compare")?;
    push_enclosed(alloc, out, first)?;
    push_word(alloc, out, "with")?;
    push_enclosed(alloc, out, second)
}

fn push_statement(
    alloc: Global,
    out: &mut List<Symbol>,
    statement: &Statement,
) -> Result<(), NoMemory>
    ensures { OnOk result (out.new ≡ out.old ++ statement_symbols statement.now) }
{
    match statement {
        Statement::Insert { relation, row } => {
            push_head(alloc, out, "insert", relation)?;
            push_row(alloc, out, row.as_slice())
        }
        Statement::Delete { relation, row } => {
            push_head(alloc, out, "delete", relation)?;
            push_row(alloc, out, row.as_slice())
        }
        Statement::DeleteWhere { relation, cond } => push_delete_where(alloc, out, relation, cond),
        Statement::Load { relation, file } => push_load(alloc, out, relation, file),
        Statement::Print { relation } => push_head(alloc, out, "print", relation),
        Statement::Schema => push_word(alloc, out, "schema"),
        Statement::Closure { attributes } => {
            push_named(alloc, out, "closure", attributes.as_slice())
        }
        Statement::Retrieve(query) => push_query(alloc, out, query),
        Statement::Explain(query) => {
            push_word(alloc, out, "explain")?;
            push_query(alloc, out, query)
        }
        Statement::Certify(query) => {
            push_word(alloc, out, "explain")?;
            push_word(alloc, out, "with")?;
            push_query(alloc, out, query)
        }
        Statement::Support(query) => {
            push_word(alloc, out, "explain")?;
            push_word(alloc, out, "from")?;
            push_query(alloc, out, query)
        }
        Statement::Compare { first, second } => push_compare(alloc, out, first, second),
        Statement::Window { attributes } => push_named(alloc, out, "window", attributes.as_slice()),
    }
}

fn text_of(alloc: Global, symbols: &[Symbol]) -> Result<List<u8>, NoMemory>
    ensures { IfOk result (λ text. text ≡ spaced symbols.now) }
{
    let mut text = Vec::new(alloc);
    push_spaced(alloc, &mut text, symbols)?;
    Ok(List::from_vec(text))
}

/// The text of the query, as `show` gives it for the statement that it is.
pub fn show_query(alloc: Global, query: &Query) -> Result<List<u8>, NoMemory>
    ensures { IfOk result (λ text. text ≡ query_text query.now) }
{
    let mut symbols = List::new(alloc);
    push_query(alloc, &mut symbols, query)?;
    text_of(alloc, symbols.as_slice())
}

/// The text of the statement, with one space between two tokens, but none behind `(`, before `)` or a
/// comma, or beside a dot, and with the fewest parentheses that the rules of shown conditions give.
///
/// It may nest deeper than the text that the statement was read from, since parts that `and` and
/// `or` grouped by themselves are shown in parentheses.
pub fn show(alloc: Global, statement: &Statement) -> Result<List<u8>, NoMemory>
    ensures text { IfOk result (λ text. text ≡ statement_text statement.now) }
    ensures read_again { ReadsAgain statement.now }
{
    let mut symbols = List::new(alloc);
    push_statement(alloc, &mut symbols, statement)?;
    text_of(alloc, symbols.as_slice())
}
