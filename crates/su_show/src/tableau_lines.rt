//! The lines of a term: its number, its rows and its head.
ghost use Rattle.std.specs.Prelude.{◌≡◌, ◌++◌, ◌<◌, [], length, flat_map, get_or, OnOk};
ghost use Rattle.su_lex.specs.Spelling.{spelled};
ghost use Rattle.su_query.specs.Operands.{op_sym};
ghost use Rattle.su_show.specs.RowLines.{symbols_text, cell_text, row_lines};
ghost use Rattle.su_show.specs.inside.TermParts.{origin_text, attributes_of};
ghost use Rattle.su_show.specs.TableauLines.{term_line, head_line, operator_at, compare_line, compare_lines, tableau_lines};

use crate::symbols::{
    attribute_name, object_attributes, object_name, push_sym, push_sym_at, variable_of,
};
use std::alloc::Global;
use su_base::parts::{push, push_number};
use su_base::{AttrSet, NoMemory};
use su_lex::push_numbers;
use su_query::Resolved;
use su_schema::Schema;
use su_steps::{Origin, Term};
use su_tableau::{Sym, Tableau};
use su_where::Op;

fn push_first(alloc: Global, out: &mut Vec<u8>, number: usize, term: &Term) -> Result<(), NoMemory>
    ensures { OnOk result (out.new.items ≡ out.old.items ++ term_line number term.now) }
{
    push(out, "term ")?;
    push_number(alloc, out, number as u64)?;
    push(out, " disjunct ")?;
    push_number(alloc, out, term.disjunct as u64)?;
    push(out, " choice")?;
    push_numbers(alloc, out, term.choice.as_slice())?;
    push(out, "\n")
}

/// The cells of a row; none where there is no such row.
fn cells(tableau: &Tableau, row: usize) -> &[Sym]
    ensures { result.now ≡ get_or tableau.now.rows row [] }
{
    if row >= tableau.row_count() {
        return &[];
    }
    tableau.row(row)
}

/// What a row is for.
fn push_origin(
    alloc: Global,
    out: &mut Vec<u8>,
    schema: &Schema,
    resolved: &Resolved,
    row: usize,
    origin: Origin,
) -> Result<(), NoMemory>
    ensures { OnOk result (out.new.items ≡ out.old.items ++ origin_text schema.now resolved.now row origin) }
{
    push(out, "  row ")?;
    push_number(alloc, out, row as u64)?;
    push(out, " ")?;
    push(out, variable_of(resolved, origin.variable as usize))?;
    push(out, " ")?;
    push(out, object_name(schema, origin.object))
}

fn push_cell(
    alloc: Global,
    out: &mut Vec<u8>,
    schema: &Schema,
    resolved: &Resolved,
    cells: &[Sym],
    attribute: u8,
) -> Result<(), NoMemory>
    ensures { OnOk result (out.new.items ≡ out.old.items ++ cell_text schema.now resolved.now cells.now attribute) }
{
    push(out, " ")?;
    push(out, attribute_name(schema, attribute as usize))?;
    push(out, "=")?;
    push_sym_at(alloc, out, schema, resolved, cells, attribute as usize)
}

/// The attributes of a set, each with its symbol.
fn push_cells(
    alloc: Global,
    out: &mut Vec<u8>,
    schema: &Schema,
    resolved: &Resolved,
    cells: &[Sym],
    set: AttrSet,
) -> Result<(), NoMemory>
    ensures { OnOk result (out.new.items ≡ out.old.items ++ flat_map (cell_text schema.now resolved.now cells.now) (attributes_of schema.now set)) }
{
    schema.keeps_its_rules();
    for attribute in 0..schema.attributes() as u8 {
        if set.contains(attribute) {
            push_cell(alloc, out, schema, resolved, cells, attribute)?;
        }
    }
    Ok(())
}

fn push_rows(
    alloc: Global,
    out: &mut Vec<u8>,
    schema: &Schema,
    resolved: &Resolved,
    term: &Term,
) -> Result<(), NoMemory>
    ensures { OnOk result (out.new.items ≡ out.old.items ++ row_lines schema.now resolved.now term.now.tableau 0 term.now.origins) }
{
    for (row, origin) in term.origins.as_slice().iter().enumerate() {
        let (cells, set) = (
            cells(&term.tableau, row),
            object_attributes(schema, origin.object),
        );
        push_origin(alloc, out, schema, resolved, row, *origin)?;
        push_cells(alloc, out, schema, resolved, cells, set)?;
        push(out, "\n")?;
    }
    Ok(())
}

/// Each symbol behind a space.
fn push_syms(
    alloc: Global,
    out: &mut Vec<u8>,
    schema: &Schema,
    resolved: &Resolved,
    symbols: &[Sym],
) -> Result<(), NoMemory>
    ensures { OnOk result (out.new.items ≡ out.old.items ++ symbols_text schema.now resolved.now symbols.now) }
{
    for symbol in symbols {
        push(out, " ")?;
        push_sym(alloc, out, schema, resolved, symbol)?;
    }
    Ok(())
}

fn push_head(
    alloc: Global,
    out: &mut Vec<u8>,
    schema: &Schema,
    resolved: &Resolved,
    tableau: &Tableau,
) -> Result<(), NoMemory>
    ensures { OnOk result (out.new.items ≡ out.old.items ++ head_line schema.now resolved.now tableau.now) }
{
    tableau.keeps_its_rules();
    let outputs = &tableau.head()[..tableau.outputs() as usize];
    push(out, "  head")?;
    push_syms(alloc, out, schema, resolved, outputs)?;
    push(out, "\n")
}

fn operator(op: Op) -> &'static str
    ensures { result.now ≡ spelled (op_sym op) }
{
    match op {
        Op::Equal => "=",
        Op::NotEqual => "!=",
        Op::Less => "<",
        Op::LessEqual => "<=",
        Op::Greater => ">",
        Op::GreaterEqual => ">=",
    }
}

/// The operator with this number; nothing where there is no such operator.
fn operator_of(operators: &[Op], number: usize) -> &str
    ensures { result.now ≡ operator_at operators.now number }
{
    match operators.get(number) {
        Some(op) => operator(*op),
        None => "",
    }
}

fn push_compare(
    alloc: Global,
    out: &mut Vec<u8>,
    schema: &Schema,
    resolved: &Resolved,
    tableau: &Tableau,
    number: usize,
) -> Result<(), NoMemory>
    requires { number < length tableau.now.operators }
    ensures { OnOk result (out.new.items ≡ out.old.items ++ compare_line schema.now resolved.now tableau.now number) }
{
    tableau.keeps_its_rules();
    let head = tableau.head();
    let place = tableau.outputs() as usize + 2 * number;
    push(out, "  compare ")?;
    push_sym_at(alloc, out, schema, resolved, head, place)?;
    push(out, " ")?;
    push(out, operator_of(tableau.operators(), number))?;
    push(out, " ")?;
    push_sym_at(alloc, out, schema, resolved, head, place + 1)?;
    push(out, "\n")
}

fn push_compares(
    alloc: Global,
    out: &mut Vec<u8>,
    schema: &Schema,
    resolved: &Resolved,
    tableau: &Tableau,
) -> Result<(), NoMemory>
    ensures { OnOk result (out.new.items ≡ out.old.items ++ compare_lines schema.now resolved.now tableau.now) }
{
    for number in 0..tableau.operators().len() {
        push_compare(alloc, out, schema, resolved, tableau, number)?;
    }
    Ok(())
}

/// The lines of a term with this number, down to its comparisons.
pub(crate) fn push_tableau(
    alloc: Global,
    out: &mut Vec<u8>,
    schema: &Schema,
    resolved: &Resolved,
    number: usize,
    term: &Term,
) -> Result<(), NoMemory>
    ensures { OnOk result (out.new.items ≡ out.old.items ++ tableau_lines schema.now resolved.now number term.now) }
{
    push_first(alloc, out, number, term)?;
    push_rows(alloc, out, schema, resolved, term)?;
    push_head(alloc, out, schema, resolved, &term.tableau)?;
    push_compares(alloc, out, schema, resolved, &term.tableau)
}
