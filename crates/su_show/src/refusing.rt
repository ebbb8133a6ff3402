//! The line of a refused statement.
ghost use Rattle.std.specs.Prelude.{◌≡◌, ◌++◌, codes, decimal, flat_map, IsSomeAnd, IfOk, OnOk};
ghost use Rattle.su_show.specs.QueryCauses.{kind_text, query_limit_text, query_fault_text, step_limit_text, step_text};
ghost use Rattle.su_show.specs.RowCauses.{state_text, record_text, csv_text};
ghost use Rattle.su_show.specs.RefusalLines.{define_text, inconsistent_text, refusal_text, IsRefusalLine};
ghost use Rattle.su_show.specs.Refusals.{cause_text};

use crate::closures::fd_at;
use crate::parts::push_all;
use crate::refusals::push_cause;
use crate::statement_refusal::Refusal;
use crate::symbols::variable;
use crate::values::{push_attributes, push_fd, push_row, push_value};
use std::alloc::Global;
use su_base::parts::{push, push_number};
use su_base::{AttrSet, Kind, List, NoMemory, Str, Value};
use su_csv::CsvFault;
use su_query::{QueryFault, QueryLimit};
use su_schema::Schema;
use su_state::{DefineFault, LoadFault, StateFault};
use su_steps::{StepFault, StepLimit};

fn kind(kind: Kind) -> &'static str
    ensures { result.now ≡ kind_text kind }
{
    match kind {
        Kind::Int => "int",
        Kind::Text => "text",
    }
}

fn query_limit(limit: QueryLimit) -> &'static str
    ensures { result.now ≡ query_limit_text limit }
{
    match limit {
        QueryLimit::Nesting => "limit nesting 64",
        QueryLimit::Variables => "limit variables 8",
        QueryLimit::Outputs => "limit outputs 128",
        QueryLimit::Comparisons => "limit comparisons 256",
    }
}

fn push_query(out: &mut Vec<u8>, fault: &QueryFault) -> Result<(), NoMemory>
    ensures { OnOk result (IsSomeAnd (query_fault_text fault.now) (λ text. out.new.items ≡ out.old.items ++ text)) }
{
    match fault {
        QueryFault::Syntax => push(out, "syntax"),
        QueryFault::Limit(limit) => push(out, query_limit(*limit)),
        QueryFault::NoMemory => Err(NoMemory),
        QueryFault::Unknown(name) => push_all(out, &["unknown attribute ", name.as_str()]),
        QueryFault::Kinds { left, right } => {
            push_all(out, &["kinds ", kind(*left), " and ", kind(*right)])
        }
        QueryFault::UnknownColumn(name) => push_all(out, &["unknown column ", name.as_str()]),
    }
}

fn push_kind_of(out: &mut Vec<u8>, column: &str) -> Result<(), NoMemory>
    ensures { OnOk result (out.new.items ≡ out.old.items ++ (codes "kind of column " ++ column.now)) }
{
    push_all(out, &["kind of column ", column])
}

fn push_not_covered(
    alloc: Global,
    out: &mut Vec<u8>,
    schema: &Schema,
    name: &Option<Str>,
    mentioned: AttrSet,
) -> Result<(), NoMemory>
    ensures { OnOk result (IsSomeAnd (step_text schema.now (StepFault.NotCovered name.now mentioned)) (λ text. out.new.items ≡ out.old.items ++ text)) }
{
    push(out, "no maximal object covers ")?;
    push(out, variable(name))?;
    push(out, ":")?;
    push_attributes(alloc, out, schema, mentioned)
}

fn push_width(alloc: Global, out: &mut Vec<u8>, given: u64, wanted: u64) -> Result<(), NoMemory>
    ensures { OnOk result (out.new.items ≡ out.old.items ++ codes "width " ++ decimal given ++ codes ", relation has " ++ decimal wanted) }
{
    let given = given.to_string(alloc)?;
    let wanted = wanted.to_string(alloc)?;
    let parts = ["width ", given.as_str(), ", relation has ", wanted.as_str()];
    push_all(out, &parts)
}

fn push_state(
    alloc: Global,
    out: &mut Vec<u8>,
    schema: &Schema,
    fault: &StateFault,
) -> Result<(), NoMemory>
    ensures { OnOk result (IsSomeAnd (state_text schema.now fault.now) (λ text. out.new.items ≡ out.old.items ++ text)) }
{
    match fault {
        StateFault::UnknownRelation(name) => push_all(out, &["unknown relation ", name.as_str()]),
        StateFault::Width { relation, given } => {
            let wanted = schema.columns_at(*relation).len();
            push_width(alloc, out, *given, wanted as u64)
        }
        StateFault::Kind { relation, column } => {
            push_kind_of(out, schema.column_name(*relation, *column as usize))
        }
        StateFault::Breaks { fd, row, .. } => {
            push(out, "breaks ")?;
            push_fd(alloc, out, schema, &fd_at(schema, *fd))?;
            push(out, " with row ")?;
            push_row(alloc, out, row)
        }
        StateFault::Limit { .. } => push(out, "limit relation 1000000"),
        StateFault::NoMemory => Err(NoMemory),
    }
}

fn push_record(alloc: Global, out: &mut Vec<u8>, number: u64, said: &[&str]) -> Result<(), NoMemory>
    ensures { OnOk result (out.new.items ≡ out.old.items ++ record_text number (flat_map (λ part. part.now) said.now)) }
{
    push(out, "record ")?;
    push_number(alloc, out, number)?;
    push(out, ": ")?;
    push_all(out, said)
}

fn push_load(
    alloc: Global,
    out: &mut Vec<u8>,
    schema: &Schema,
    fault: &LoadFault,
) -> Result<(), NoMemory>
    ensures { OnOk result (IsSomeAnd (refusal_text schema.now (Refusal.Record fault.now)) (λ text. out.new.items ≡ out.old.items ++ text)) }
{
    push_record(alloc, out, fault.number, &[])?;
    push_state(alloc, out, schema, &fault.fault)
}

fn push_csv(
    alloc: Global,
    out: &mut Vec<u8>,
    schema: &Schema,
    relation: u8,
    fault: CsvFault,
) -> Result<(), NoMemory>
    ensures { OnOk result (IsSomeAnd (csv_text schema.now relation fault) (λ text. out.new.items ≡ out.old.items ++ text)) }
{
    match fault {
        CsvFault::Header => push(out, "header"),
        CsvFault::TooMany => push(out, "limit records 1000000"),
        CsvFault::Width { number } => push_record(alloc, out, number, &["width"]),
        CsvFault::NotInt { number, column } => {
            let name = schema.column_name(relation, column as usize);
            push_record(alloc, out, number, &["column ", name, " is no number"])
        }
        CsvFault::NotText { number, column } => {
            let name = schema.column_name(relation, column as usize);
            push_record(alloc, out, number, &["column ", name, " is no text"])
        }
        CsvFault::NoMemory => Err(NoMemory),
    }
}

fn step_limit(limit: StepLimit) -> &'static str
    ensures { result.now ≡ step_limit_text limit }
{
    match limit {
        StepLimit::Disjuncts => "limit disjuncts 64",
        StepLimit::Rows => "limit rows 64",
        StepLimit::Terms => "limit terms 256",
    }
}

fn push_step(
    alloc: Global,
    out: &mut Vec<u8>,
    schema: &Schema,
    fault: &StepFault,
) -> Result<(), NoMemory>
    ensures { OnOk result (IsSomeAnd (step_text schema.now fault.now) (λ text. out.new.items ≡ out.old.items ++ text)) }
{
    match fault {
        StepFault::NotCovered {
            variable,
            mentioned,
        } => push_not_covered(alloc, out, schema, variable, *mentioned),
        StepFault::Limit(limit) => push(out, step_limit(*limit)),
        StepFault::NoMemory => Err(NoMemory),
    }
}

fn push_define(
    alloc: Global,
    out: &mut Vec<u8>,
    schema: &Schema,
    fault: &DefineFault,
) -> Result<(), NoMemory>
    ensures { OnOk result (IsSomeAnd (define_text schema.now fault.now) (λ text. out.new.items ≡ out.old.items ++ text)) }
{
    match fault {
        DefineFault::Schema(fault) => push_cause(out, fault),
        DefineFault::Breaks {
            fd,
            first,
            second,
            ..
        } => {
            push(out, "breaks ")?;
            push_fd(alloc, out, schema, fd)?;
            push(out, " with rows ")?;
            push_row(alloc, out, first)?;
            push(out, " and ")?;
            push_row(alloc, out, second)
        }
        DefineFault::NoMemory => Err(NoMemory),
    }
}

fn push_inconsistent(
    alloc: Global,
    out: &mut Vec<u8>,
    less: &Value,
    greater: &Value,
) -> Result<(), NoMemory>
    ensures { OnOk result (out.new.items ≡ out.old.items ++ inconsistent_text less.now greater.now) }
{
    push(out, "inconsistent ")?;
    push_value(alloc, out, less)?;
    push(out, " and ")?;
    push_value(alloc, out, greater)
}

fn push_refusal(
    alloc: Global,
    out: &mut Vec<u8>,
    schema: &Schema,
    refusal: &Refusal,
) -> Result<(), NoMemory>
    ensures { OnOk result (IsSomeAnd (refusal_text schema.now refusal.now) (λ text. out.new.items ≡ out.old.items ++ text)) }
{
    match refusal {
        Refusal::Query(fault) => push_query(out, fault),
        Refusal::State(fault) => push_state(alloc, out, schema, fault),
        Refusal::Record(fault) => push_load(alloc, out, schema, fault),
        Refusal::Csv(relation, fault) => push_csv(alloc, out, schema, *relation, *fault),
        Refusal::Steps(fault) => push_step(alloc, out, schema, fault),
        Refusal::Answer => push(out, "limit answer 1000000"),
        Refusal::Nodes => push(out, "limit nodes 200000"),
        Refusal::Define(fault) => push_define(alloc, out, schema, fault),
        Refusal::OnlyEqual => push(out, "only equalities"),
        Refusal::OutputsDiffer => push(out, "outputs differ"),
        Refusal::WindowLimit => push(out, "limit window 20000"),
        Refusal::Inconsistent { less, greater } => push_inconsistent(alloc, out, less, greater),
    }
}

/// The line of a refused statement, with its line feed. Want of memory is no refusal and is handed on.
pub fn refusal(alloc: Global, schema: &Schema, refusal: &Refusal) -> Result<List<u8>, NoMemory>
    ensures { IfOk result (λ line. IsRefusalLine schema.now refusal.now line) }
{
    let mut out = Vec::new(alloc);
    push(&mut out, "refused: ")?;
    push_refusal(alloc, &mut out, schema, refusal)?;
    push(&mut out, "\n")?;
    Ok(List::from_vec(out))
}
