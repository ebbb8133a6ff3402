//! Selects as SQL.
ghost use Rattle.std.specs.Prelude.{◌≡◌, ◌<◌, ◌++◌, length, map, codes, decimal, OnOk, IfOk};
ghost use Rattle.std.specs.List.{range_with_len};
ghost use Rattle.su_ddl.specs.ShownDefinitions.{name_at};
ghost use Rattle.su_sql.specs.Names.{led, name_text};
ghost use Rattle.su_sql.specs.Clauses.{join_text, fixed_text, comparison_text, conditions_of, output_text};
ghost use Rattle.su_sql.specs.Queries.{outputs_of, select_text, place_number, order_text, null_text, no_select_text, union_text, selects_text};
ghost use Rattle.su_sql.specs.Operands.{place_text, operand_text, ordered_text, right_text};

use crate::dialects::Dialect;
use crate::parts::push_led;
use crate::sources::{push_value_name, sources_at, table_parts};
use crate::tables::{CellPlace, Comparison, Fixed, Join, Operand, Select, Table};
use crate::words::{collation, operator, push_name, push_value};
use std::alloc::Global;
use su_base::parts::{push, push_number};
use su_base::{List, NoMemory, Str};
use su_schema::Schema;

fn push_place(
    alloc: Global,
    out: &mut Vec<u8>,
    dialect: Dialect,
    schema: &Schema,
    tables: &[Table],
    place: CellPlace,
) -> Result<(), NoMemory>
    ensures { OnOk result (out.new.items ≡ out.old.items ++ place_text dialect schema.now tables.now place) }
{
    push(out, "r")?;
    push_number(alloc, out, place.table as u64)?;
    push(out, ".")?;
    push_value_name(
        alloc,
        out,
        dialect,
        schema,
        sources_at(tables, place.table),
        place.cell,
    )
}

fn push_operand(
    alloc: Global,
    out: &mut Vec<u8>,
    dialect: Dialect,
    schema: &Schema,
    tables: &[Table],
    operand: &Operand,
) -> Result<(), NoMemory>
    ensures { OnOk result (out.new.items ≡ out.old.items ++ operand_text dialect schema.now tables.now operand.now) }
{
    match operand {
        Operand::At(place) => push_place(alloc, out, dialect, schema, tables, *place),
        Operand::Const(value) => push_value(alloc, out, dialect, value),
    }
}

/// An operand that is ordered by its bytes.
fn push_ordered(
    alloc: Global,
    out: &mut Vec<u8>,
    dialect: Dialect,
    schema: &Schema,
    tables: &[Table],
    operand: &Operand,
) -> Result<(), NoMemory>
    ensures { OnOk result (out.new.items ≡ out.old.items ++ ordered_text dialect schema.now tables.now operand.now) }
{
    match operand {
        Operand::At(place) => push_place(alloc, out, dialect, schema, tables, *place),
        Operand::Const(value) => {
            push_value(alloc, out, dialect, value)?;
            push(out, collation(dialect, value.kind()))
        }
    }
}

/// The right side of a comparison. Two constants are told to be compared by their bytes.
fn push_right(
    alloc: Global,
    out: &mut Vec<u8>,
    dialect: Dialect,
    schema: &Schema,
    tables: &[Table],
    comparison: &Comparison,
) -> Result<(), NoMemory>
    ensures { OnOk result (out.new.items ≡ out.old.items ++ right_text dialect schema.now tables.now comparison.now.left comparison.now.right) }
{
    let right = &comparison.right;
    match &comparison.left {
        Operand::At(_) => push_operand(alloc, out, dialect, schema, tables, right),
        Operand::Const(_) => push_ordered(alloc, out, dialect, schema, tables, right),
    }
}

fn join_part(
    alloc: Global,
    dialect: Dialect,
    schema: &Schema,
    tables: &[Table],
    join: &Join,
) -> Result<List<u8>, NoMemory>
    ensures { IfOk result (λ part. part ≡ join_text dialect schema.now tables.now join.now) }
{
    let mut out = Vec::new(alloc);
    push_place(alloc, &mut out, dialect, schema, tables, join.left)?;
    push(&mut out, " = ")?;
    push_place(alloc, &mut out, dialect, schema, tables, join.right)?;
    Ok(List::from_vec(out))
}

fn fixed_part(
    alloc: Global,
    dialect: Dialect,
    schema: &Schema,
    tables: &[Table],
    fixed: &Fixed,
) -> Result<List<u8>, NoMemory>
    ensures { IfOk result (λ part. part ≡ fixed_text dialect schema.now tables.now fixed.now) }
{
    let mut out = Vec::new(alloc);
    push_place(alloc, &mut out, dialect, schema, tables, fixed.place)?;
    push(&mut out, " = ")?;
    push_value(alloc, &mut out, dialect, &fixed.value)?;
    Ok(List::from_vec(out))
}

fn comparison_part(
    alloc: Global,
    dialect: Dialect,
    schema: &Schema,
    tables: &[Table],
    comparison: &Comparison,
) -> Result<List<u8>, NoMemory>
    ensures { IfOk result (λ part. part ≡ comparison_text dialect schema.now tables.now comparison.now) }
{
    let mut out = Vec::new(alloc);
    push_operand(alloc, &mut out, dialect, schema, tables, &comparison.left)?;
    push(&mut out, operator(comparison.op))?;
    push_right(alloc, &mut out, dialect, schema, tables, comparison)?;
    Ok(List::from_vec(out))
}

fn join_parts(
    alloc: Global,
    dialect: Dialect,
    schema: &Schema,
    select: &Select,
) -> Result<List<List<u8>>, NoMemory>
    ensures { IfOk result (λ parts. parts ≡ map (join_text dialect schema.now select.now.tables) select.now.joins) }
{
    let mut parts = List::new(alloc);
    for join in select.joins.as_slice() {
        parts.push(join_part(alloc, dialect, schema, select.tables.as_slice(), join)?)?;
    }
    Ok(parts)
}

fn fixed_parts(
    alloc: Global,
    dialect: Dialect,
    schema: &Schema,
    select: &Select,
) -> Result<List<List<u8>>, NoMemory>
    ensures { IfOk result (λ parts. parts ≡ map (fixed_text dialect schema.now select.now.tables) select.now.fixed) }
{
    let mut parts = List::new(alloc);
    for fixed in select.fixed.as_slice() {
        parts.push(fixed_part(alloc, dialect, schema, select.tables.as_slice(), fixed)?)?;
    }
    Ok(parts)
}

fn comparison_parts(
    alloc: Global,
    dialect: Dialect,
    schema: &Schema,
    select: &Select,
) -> Result<List<List<u8>>, NoMemory>
    ensures { IfOk result (λ parts. parts ≡ map (comparison_text dialect schema.now select.now.tables) select.now.comparisons) }
{
    let mut parts = List::new(alloc);
    for comparison in select.comparisons.as_slice() {
        parts.push(comparison_part(alloc, dialect, schema, select.tables.as_slice(), comparison)?)?;
    }
    Ok(parts)
}

fn condition_parts(
    alloc: Global,
    dialect: Dialect,
    schema: &Schema,
    select: &Select,
) -> Result<List<List<u8>>, NoMemory>
    ensures { IfOk result (λ parts. parts ≡ conditions_of dialect schema.now select.now) }
{
    let mut parts = join_parts(alloc, dialect, schema, select)?;
    let fixed = fixed_parts(alloc, dialect, schema, select)?;
    let comparisons = comparison_parts(alloc, dialect, schema, select)?;
    parts.append(fixed)?;
    parts.append(comparisons)?;
    Ok(parts)
}

fn name_at(header: &[Str], i: usize) -> &str
    ensures { result.now ≡ name_at header.now i }
{
    match header.get(i) {
        Some(name) => name.as_str(),
        None => "",
    }
}

fn output_part(
    alloc: Global,
    dialect: Dialect,
    schema: &Schema,
    header: &[Str],
    select: &Select,
    i: usize,
) -> Result<List<u8>, NoMemory>
    requires { i < length select.now.outputs }
    ensures { IfOk result (λ part. part ≡ output_text dialect schema.now header.now select.now i) }
{
    let mut out = Vec::new(alloc);
    let output = select.outputs.get(i);
    push_ordered(
        alloc,
        &mut out,
        dialect,
        schema,
        select.tables.as_slice(),
        output,
    )?;
    push(&mut out, " as ")?;
    push_name(&mut out, dialect, name_at(header, i))?;
    Ok(List::from_vec(out))
}

fn output_parts(
    alloc: Global,
    dialect: Dialect,
    schema: &Schema,
    header: &[Str],
    select: &Select,
) -> Result<List<List<u8>>, NoMemory>
    ensures { IfOk result (λ parts. parts ≡ outputs_of dialect schema.now header.now select.now) }
{
    let mut parts = List::new(alloc);
    for i in 0..select.outputs.len() {
        parts.push(output_part(alloc, dialect, schema, header, select, i)?)?;
    }
    Ok(parts)
}

fn select_part(
    alloc: Global,
    dialect: Dialect,
    schema: &Schema,
    header: &[Str],
    word: &str,
    select: &Select,
) -> Result<List<u8>, NoMemory>
    ensures { IfOk result (λ part. part ≡ select_text dialect schema.now header.now word.now select.now) }
{
    let outputs = output_parts(alloc, dialect, schema, header, select)?;
    let tables = table_parts(alloc, dialect, schema, select.tables.as_slice())?;
    let conditions = condition_parts(alloc, dialect, schema, select)?;
    let mut out = Vec::new(alloc);
    push_led(&mut out, word, ", ", outputs.as_slice())?;
    push_led(&mut out, "\nfrom ", ", ", tables.as_slice())?;
    push_led(&mut out, "\nwhere ", " and ", conditions.as_slice())?;
    Ok(List::from_vec(out))
}

fn select_parts(
    alloc: Global,
    dialect: Dialect,
    schema: &Schema,
    header: &[Str],
    selects: &[Select],
) -> Result<List<List<u8>>, NoMemory>
    ensures { IfOk result (λ parts. parts ≡ map (select_text dialect schema.now header.now (codes "select ")) selects.now) }
{
    let mut parts = List::new(alloc);
    for select in selects {
        let part = select_part(alloc, dialect, schema, header, "select ", select)?;
        parts.push(part)?;
    }
    Ok(parts)
}

fn null_part(alloc: Global, dialect: Dialect, name: &Str) -> Result<List<u8>, NoMemory>
    ensures { IfOk result (λ part. part ≡ null_text dialect name.now) }
{
    let mut out = Vec::new(alloc);
    push(&mut out, "null as ")?;
    push_name(&mut out, dialect, name.as_str())?;
    Ok(List::from_vec(out))
}

fn null_parts(alloc: Global, dialect: Dialect, header: &[Str]) -> Result<List<List<u8>>, NoMemory>
    ensures { IfOk result (λ parts. parts ≡ map (null_text dialect) header.now) }
{
    let mut parts = List::new(alloc);
    for name in header {
        parts.push(null_part(alloc, dialect, name)?)?;
    }
    Ok(parts)
}

fn number_part(alloc: Global, number: usize) -> Result<List<u8>, NoMemory>
    ensures { IfOk result (λ part. part ≡ decimal number) }
{
    let mut out = Vec::new(alloc);
    push_number(alloc, &mut out, number as u64)?;
    Ok(List::from_vec(out))
}

fn number_parts(alloc: Global, n: usize) -> Result<List<List<u8>>, NoMemory>
    ensures { IfOk result (λ parts. parts ≡ map place_number (range_with_len 0 n)) }
{
    let mut parts = List::new(alloc);
    for i in 0..n {
        parts.push(number_part(alloc, i + 1)?)?;
    }
    Ok(parts)
}

/// Orders by so many outputs.
pub(crate) fn push_order(alloc: Global, out: &mut Vec<u8>, n: usize) -> Result<(), NoMemory>
    ensures { OnOk result (out.new.items ≡ out.old.items ++ order_text n) }
{
    let parts = number_parts(alloc, n)?;
    push_led(out, "\norder by ", ", ", parts.as_slice())
}

/// A query without rows.
fn push_no_select(
    alloc: Global,
    out: &mut Vec<u8>,
    dialect: Dialect,
    header: &[Str],
) -> Result<(), NoMemory>
    ensures { OnOk result (out.new.items ≡ out.old.items ++ no_select_text dialect header.now) }
{
    let parts = null_parts(alloc, dialect, header)?;
    push_led(out, "select ", ", ", parts.as_slice())?;
    push(out, "\nwhere 1 = 0")
}

/// The union of the selects, or a query without rows where there is none.
fn push_all_selects(
    alloc: Global,
    out: &mut Vec<u8>,
    dialect: Dialect,
    schema: &Schema,
    header: &[Str],
    selects: &[Select],
) -> Result<(), NoMemory>
    ensures { OnOk result (out.new.items ≡ out.old.items ++ union_text dialect schema.now header.now selects.now) }
{
    match selects {
        [] => push_no_select(alloc, out, dialect, header),
        [select] => {
            let part = select_part(alloc, dialect, schema, header, "select distinct ", select)?;
            out.extend_from_slice(part.as_slice())?;
            Ok(())
        }
        _ => {
            let parts = select_parts(alloc, dialect, schema, header, selects)?;
            push_led(out, "", "\nunion\n", parts.as_slice())
        }
    }
}

/// The union of the selects as one statement, ordered by all outputs, which have the header's names.
/// Rows that are given twice are given once.
pub fn query(
    alloc: Global,
    dialect: Dialect,
    schema: &Schema,
    header: &[Str],
    selects: &[Select],
) -> Result<List<u8>, NoMemory>
    ensures { IfOk result (λ text. text ≡ selects_text dialect schema.now header.now selects.now) }
{
    let mut out = Vec::new(alloc);
    push_all_selects(alloc, &mut out, dialect, schema, header, selects)?;
    push_order(alloc, &mut out, header.len())?;
    push(&mut out, ";\n")?;
    Ok(List::from_vec(out))
}
