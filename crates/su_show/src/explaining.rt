//! The explanation of a query.
ghost use Rattle.std.specs.Prelude.{◌≡◌, ◌++◌, ◌<◌, length, IfOk, OnOk};
ghost use Rattle.su_show.specs.Explanations.{query_line, variables_line, last_line, IsTermText, IsExplanation};

use crate::minimal_lines::{push_end, push_minimal};
use crate::symbols::variable;
use crate::tableau_lines::push_tableau;
use std::alloc::Global;
use su_base::parts::{push, push_number};
use su_base::{List, NoMemory};
use su_min::{Minimal, Reduced};
use su_query::{Query, Resolved, show_query};
use su_schema::Schema;
use su_steps::Term;

fn push_query(alloc: Global, out: &mut Vec<u8>, query: &Query) -> Result<(), NoMemory>
    ensures { OnOk result (out.new.items ≡ out.old.items ++ query_line query.now) }
{
    let shown = show_query(alloc, query)?;
    push(out, "query: ")?;
    out.extend_from_slice(shown.as_slice())?;
    push(out, "\n")
}

fn push_variables(out: &mut Vec<u8>, resolved: &Resolved) -> Result<(), NoMemory>
    ensures { OnOk result (out.new.items ≡ out.old.items ++ variables_line resolved.now) }
{
    push(out, "variables")?;
    for name in resolved.variables.as_slice() {
        push(out, " ")?;
        push(out, variable(name))?;
    }
    push(out, "\n")
}

fn push_last(
    alloc: Global,
    out: &mut Vec<u8>,
    terms: &[Term],
    reduced: &Reduced,
) -> Result<(), NoMemory>
    ensures { OnOk result (out.new.items ≡ out.old.items ++ last_line terms.now reduced.now) }
{
    push(out, "terms ")?;
    push_number(alloc, out, terms.len() as u64)?;
    push(out, " kept ")?;
    push_number(alloc, out, reduced.kept.len() as u64)?;
    push(out, "\n")
}

/// The explanation of a query: the query and its variables, its terms with their rows and heads, and
/// how they are minimised: the rows that are kept of a term, with the sources that answer for them,
/// or the kept term that answers for it. The query is shown, `resolved` is the same query over
/// numbers, and `minimals` has the least rows of each of the terms.
pub fn explanation(
    alloc: Global,
    schema: &Schema,
    query: &Query,
    resolved: &Resolved,
    terms: &[Term],
    minimals: &[Minimal],
    reduced: &Reduced,
) -> Result<List<u8>, NoMemory>
    requires one_each { length minimals.now ≡ length terms.now }
    ensures text { IfOk result (IsExplanation schema.now query.now resolved.now terms.now minimals.now reduced.now) }
{
    let mut out = Vec::new(alloc);
    push_query(alloc, &mut out, query)?;
    push_variables(&mut out, resolved)?;
    for i in 0..terms.len() {
        let (term, minimal) = (&terms[i], &minimals[i]);
        push_tableau(alloc, &mut out, schema, resolved, i, term)?;
        push_minimal(alloc, &mut out, minimal)?;
        push_end(alloc, &mut out, schema, reduced, i, minimal)?;
    }
    push_last(alloc, &mut out, terms, reduced)?;
    Ok(List::from_vec(out))
}
