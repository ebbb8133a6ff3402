//! The text of two verdicts.
ghost use Rattle.std.specs.Prelude.{◌≡◌, ◌++◌, codes, decimal, flat_map, IfOk, OnOk};
ghost use Rattle.su_schema.specs.Entries.{attribute_names};
ghost use Rattle.su_lex.specs.Wordings.{numbers_text};
ghost use Rattle.su_compare.specs.Texts.{by_text, reason_line, counts_text, head_text, apart_text, verdict_text, verdicts_text};

use crate::verdicts::{Found, Reason, Verdict};
use std::alloc::Global;
use su_base::parts::{push, push_number};
use su_base::{List, NoMemory, Row, Str};
use su_csv::write_behind;
use su_lex::{push_numbers, push_spaced};
use su_query::push_row as push_row_symbols;
use su_schema::Schema;

/// The term that maps, and the rows to which its rows go.
fn push_found(alloc: Global, out: &mut Vec<u8>, found: &Found) -> Result<(), NoMemory>
    ensures { OnOk result (out.new.items ≡ out.old.items ++ (codes " by " ++ decimal found.now.term ++ codes " rows" ++ numbers_text found.now.mapping.list)) }
{
    push(out, " by ")?;
    push_number(alloc, out, found.term as u64)?;
    push(out, " rows")?;
    push_numbers(alloc, out, found.mapping.list())
}

fn push_by(alloc: Global, out: &mut Vec<u8>, by: &Option<Found>) -> Result<(), NoMemory>
    ensures { OnOk result (out.new.items ≡ out.old.items ++ by_text by.now) }
{
    match by {
        Some(found) => push_found(alloc, out, found),
        None => push(out, " empty"),
    }
}

fn push_reason(alloc: Global, out: &mut Vec<u8>, reason: &Reason) -> Result<(), NoMemory>
    ensures { OnOk result (out.new.items ≡ out.old.items ++ reason_line reason.now) }
{
    push(out, "  term ")?;
    push_number(alloc, out, reason.term as u64)?;
    push_by(alloc, out, &reason.by)?;
    push(out, "\n")
}

fn push_reasons(alloc: Global, out: &mut Vec<u8>, reasons: &[Reason]) -> Result<(), NoMemory>
    ensures { OnOk result (out.new.items ≡ out.old.items ++ flat_map reason_line reasons.now) }
{
    for reason in reasons {
        push_reason(alloc, out, reason)?;
    }
    Ok(())
}

/// The names of the attributes.
fn header_of(alloc: Global, schema: &Schema) -> Result<List<Str>, NoMemory>
    ensures { IfOk result (λ names. names ≡ attribute_names schema.now) }
{
    schema.keeps_its_rules();
    let mut names = List::new(alloc);
    for a in 0..schema.attributes() as u8 {
        let name = Str::new(alloc, schema.attribute_name(a))?;
        names.push(name)?;
    }
    Ok(names)
}

fn push_head(alloc: Global, out: &mut Vec<u8>, head: &Row) -> Result<(), NoMemory>
    ensures { OnOk result (out.new.items ≡ out.old.items ++ head_text head.now) }
{
    let mut symbols = List::new(alloc);
    push_row_symbols(alloc, &mut symbols, head.as_slice())?;
    push(out, "row ")?;
    push_spaced(alloc, out, symbols.as_slice())?;
    push(out, "\n")
}

/// The number of the term and that of the rows.
fn push_counts(alloc: Global, out: &mut Vec<u8>, term: u16, rows: usize) -> Result<(), NoMemory>
    ensures { OnOk result (out.new.items ≡ out.old.items ++ counts_text term rows) }
{
    push(out, "  term ")?;
    push_number(alloc, out, term as u64)?;
    push(out, "\nrows ")?;
    push_number(alloc, out, rows as u64)?;
    push(out, "\n")
}

/// The text with the term, the rows and the row behind it.
fn with_apart(
    alloc: Global,
    text: Vec<u8>,
    schema: &Schema,
    term: u16,
    universe: &[Row],
    head: &Row,
) -> Result<Vec<u8>, NoMemory>
    ensures { IfOk result (λ out. out.items ≡ text.items ++ apart_text schema.now term universe.now head.now) }
{
    let mut text = text;
    push_counts(alloc, &mut text, term, universe.len())?;
    let header = header_of(alloc, schema)?;
    let rows = write_behind(alloc, List::from_vec(text), header.as_slice(), universe)?;
    let mut text = rows.into_vec();
    push_head(alloc, &mut text, head)?;
    Ok(text)
}

/// The text with the verdict behind it.
fn with_verdict(
    alloc: Global,
    text: Vec<u8>,
    schema: &Schema,
    verdict: &Verdict,
) -> Result<Vec<u8>, NoMemory>
    ensures { IfOk result (λ out. out.items ≡ text.items ++ verdict_text schema.now verdict.now) }
{
    let mut text = text;
    match verdict {
        Verdict::Within(reasons) => {
            push(&mut text, "yes\n")?;
            push_reasons(alloc, &mut text, reasons.as_slice())?;
            Ok(text)
        }
        Verdict::Apart {
            term,
            universe,
            head,
        } => {
            push(&mut text, "no\n")?;
            with_apart(alloc, text, schema, *term, universe.as_slice(), head)
        }
    }
}

/// Whether the first query is within the second, and then whether the second is within the first:
/// yes with a line for each term, or no with the rows that show it, as CSV over all attributes.
pub fn show(
    alloc: Global,
    schema: &Schema,
    forth: &Verdict,
    back: &Verdict,
) -> Result<List<u8>, NoMemory>
    ensures { IfOk result (λ text. text ≡ verdicts_text schema.now forth.now back.now) }
{
    let mut text = Vec::new(alloc);
    push(&mut text, "first within second: ")?;
    let mut text = with_verdict(alloc, text, schema, forth)?;
    push(&mut text, "second within first: ")?;
    let text = with_verdict(alloc, text, schema, back)?;
    Ok(List::from_vec(text))
}
