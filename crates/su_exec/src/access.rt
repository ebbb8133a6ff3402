//! How the rows of a source are reached with few fetches.
ghost use Rattle.std.specs.Prelude.{◌≡◌, ◌<◌, ◌≤◌, length, IfOk, IfSome};
ghost use Rattle.su_base.specs.declared.values.Value.{Value as AValue};
ghost use Rattle.su_tableau.specs.declared.symbols.Sym.TheVariants.{Const};
ghost use Rattle.su_index.specs.Matches.{matches, AreMatches};
ghost use Rattle.su_index.specs.Tables.{table_at};
ghost use Rattle.su_exec.specs.Shares.{share};
ghost use Rattle.su_exec.specs.Tasks.{FitsTables, HasSources};
ghost use Rattle.su_exec.specs.inside.Ways.{AreOfTable, HasAt, HasCodesAt, IsCheapest, IsSureWay, IsUpToMatches, IsWay};

use crate::candidates::Candidates;
use crate::places::place_of;
use crate::tasks::{Source, TaskRow};
use std::alloc::{AllocError, Global};
use su_base::Value;
use su_index::Rows;
use su_reduce::{Codes, Distinct, Sheet, variable_of};
use su_tableau::Sym;

/// How the rows of a source are reached, and how many are fetched.
#[derive(Drop)]
pub struct Access {
    pub way: Way,
    pub cost: usize,
}

/// All rows, or those at these positions.
#[derive(Drop)]
pub enum Way {
    All,
    Listed(Vec<usize>),
}

/// What is known of the variables so far.
#[derive(Clone, Copy)]
pub struct Known<'a> {
    pub codes: &'a Codes,
    pub edges: &'a [Candidates],
}

/// The place of the constant that the fewest rows have, if there is one, and how many these are.
#[derive(Clone, Copy)]
pub struct Cheapest {
    pub place: Option<usize>,
    pub cost: usize,
}

/// The codes at a place of the candidates, each once.
fn codes_at(alloc: Global, edge: &Candidates, place: usize) -> Result<Sheet, AllocError>
    requires { place < length edge.now.vars }
    ensures width { IfOk result (λ codes. codes.width ≡ 1) }
    ensures all { IfOk result (λ codes. HasCodesAt edge.now place codes.rows) }
{
    let mut codes = Distinct::new(alloc, 1)?;
    for i in 0..edge.len() {
        let code = edge.rows().row(i)[place];
        codes.add(alloc, &[code])?;
    }
    Ok(codes.into_rows())
}

/// The positions of the rows that have one of the codes' values in the column, unless they are more than
/// `most`. Each value is searched once.
fn positions_of<R: Rows>(
    alloc: Global,
    rows: &R,
    table: u8,
    column: u8,
    codes: &Codes,
    values: &Sheet,
    most: usize,
) -> Result<Option<Vec<usize>>, AllocError>
    requires table { table < length (R.tables rows.now) }
    requires column { column < (table_at (R.tables rows.now) table).width }
    requires one { values.now.width ≡ 1 }
    ensures few { IfOk result (λ found. IfSome found (λ positions. length positions.items ≤ most)) }
    ensures listed { IfOk result (λ found. IfSome found (λ positions. AreOfTable (R.tables rows.now) table column codes.now values.now.rows positions.items)) }
{
    let mut positions = Vec::new(alloc);
    for i in 0..values.len() {
        let value = codes.value(values.row(i)[0]);
        let left = most - positions.len();
        if !rows.add_positions(table, column, value, left, &mut positions)? {
            return Ok(None);
        }
    }
    Ok(Some(positions))
}

/// The candidates with the variable that have the fewest rows, and the variable's place.
fn fewest(edges: &[Candidates], k: u32) -> Option<(usize, usize)>
    ensures { IfSome result (λ r. HasAt edges.now k r.0 r.1) }
{
    let mut best = None;
    let mut least = usize::MAX;
    for e in 0..edges.len() {
        if let Some(place) = place_of(edges[e].vars(), k) {
            if edges[e].len() < least {
                least = edges[e].len();
                best = Some((e, place));
            }
        }
    }
    best
}

/// The cheaper of the one so far and the constant at the place.
fn cheaper<R: Rows>(rows: &R, row: &TaskRow, source: &Source, p: usize, best: Cheapest) -> Cheapest
    requires source { FitsTables (R.tables rows.now) (length row.now.cells) source.now }
    requires place { p < length row.now.cells }
    requires so_far { IsCheapest (R.tables rows.now) row.now source.now best }
    ensures way { IsCheapest (R.tables rows.now) row.now source.now result }
    ensures less { result.cost ≤ best.cost }
    ensures here { IsUpToMatches (R.tables rows.now) row.now source.now p result.cost }
{
    let Sym::Const(value) = row.cells.get(p) else {
        return best;
    };
    let cost = rows.matching(source.relation, *source.columns.get(p), value);
    if best.cost <= cost {
        return best;
    }
    Cheapest {
        place: Some(p),
        cost,
    }
}

/// The cheapest of all rows and the constants of the row.
fn cheapest_of<R: Rows>(rows: &R, row: &TaskRow, source: &Source) -> Cheapest
    requires source { FitsTables (R.tables rows.now) (length row.now.cells) source.now }
    ensures way { IsCheapest (R.tables rows.now) row.now source.now result }
    ensures share { result.cost ≤ share (R.tables rows.now) row.now.cells source.now }
{
    let mut best = Cheapest {
        place: None,
        cost: rows.len(source.relation),
    };
    for p in 0..row.cells.len() {
        best = cheaper(rows, row, source, p, best);
    }
    best
}

/// The constant, which the cell is.
fn constant_of(cell: &Sym) -> &Value
    requires { (value : AValue) × (cell.now ≡ Const value) }
    ensures { cell.now ≡ Const result.now }
{
    match cell {
        Sym::Const(value) => value,
        Sym::Var(_) => unreachable!(),
    }
}

/// The positions of the rows that have the value in the column, which are `most` or fewer.
fn positions_with<R: Rows>(
    alloc: Global,
    rows: &R,
    table: u8,
    column: u8,
    value: &Value,
    most: usize,
) -> Result<Vec<usize>, AllocError>
    requires table { table < length (R.tables rows.now) }
    requires column { column < (table_at (R.tables rows.now) table).width }
    requires few { matches column value.now (table_at (R.tables rows.now) table).rows ≤ most }
    ensures found { IfOk result (λ positions. AreMatches column value.now (table_at (R.tables rows.now) table).rows positions.items) }
    ensures few { IfOk result (λ positions. length positions.items ≤ most) }
{
    let mut positions = Vec::new(alloc);
    if rows.add_positions(table, column, value, most, &mut positions)? {
        return Ok(positions);
    }
    unreachable!()
}

/// The way by the cheapest of the row's constants.
fn by_constants<R: Rows>(
    alloc: Global,
    rows: &R,
    row: &TaskRow,
    source: &Source,
) -> Result<Access, AllocError>
    requires { FitsTables (R.tables rows.now) (length row.now.cells) source.now }
    ensures way { IfOk result (λ access. IsSureWay (R.tables rows.now) row.now source.now access.way access.cost) }
    ensures share { IfOk result (λ access. access.cost ≤ share (R.tables rows.now) row.now.cells source.now) }
{
    let best = cheapest_of(rows, row, source);
    let Some(p) = best.place else {
        return Ok(Access {
            way: Way::All,
            cost: best.cost,
        });
    };
    // For the proof: the table is a relation.
    let _count = rows.len(source.relation);
    let value = constant_of(row.cells.get(p));
    let positions = positions_with(
        alloc,
        rows,
        source.relation,
        *source.columns.get(p),
        value,
        best.cost,
    )?;
    Ok(Access {
        way: Way::Listed(positions),
        cost: best.cost,
    })
}

/// An index is asked for at most one value for so many rows that it may save.
const WORTH: usize = 8;

/// An index is used where it leaves at most one row of so many: a row that it gives is searched for, and
/// read out of order.
const LEAVES: usize = 2;

/// The better of the way so far and the one by what is known of the variable at the place.
fn by_variable<R: Rows>(
    alloc: Global,
    rows: &R,
    row: &TaskRow,
    source: &Source,
    known: &Known,
    p: usize,
    best: Access,
) -> Result<Access, AllocError>
    requires source { FitsTables (R.tables rows.now) (length row.now.cells) source.now }
    requires place { p < length row.now.cells }
    requires so_far { IsWay (R.tables rows.now) known.now.codes.now known.now.edges.now row.now source.now best.way best.cost }
    ensures way { IfOk result (λ access. IsWay (R.tables rows.now) known.now.codes.now known.now.edges.now row.now source.now access.way access.cost) }
    ensures less { IfOk result (λ access. access.cost ≤ best.cost) }
{
    let Some(k) = variable_of(row.cells.get(p)) else {
        return Ok(best);
    };
    let Some((e, place)) = fewest(known.edges, k) else {
        return Ok(best);
    };
    let edge = &known.edges[e];
    if edge.len() >= best.cost / WORTH {
        return Ok(best);
    }
    // For the proof: the table is a relation.
    let _count = rows.len(source.relation);
    let column = *source.columns.get(p);
    let values = codes_at(alloc, edge, place)?;
    let most = best.cost / LEAVES;
    match positions_of(
        alloc,
        rows,
        source.relation,
        column,
        known.codes,
        &values,
        most,
    )? {
        None => Ok(best),
        Some(positions) => {
            let cost = positions.len();
            Ok(Access {
                way: Way::Listed(positions),
                cost,
            })
        }
    }
}

/// A way to the rows of the source that fit the row, at the cost of its share or less.
pub fn access_of<R: Rows>(
    alloc: Global,
    rows: &R,
    row: &TaskRow,
    source: &Source,
    known: &Known,
) -> Result<Access, AllocError>
    requires { FitsTables (R.tables rows.now) (length row.now.cells) source.now }
    ensures way { IfOk result (λ access. IsWay (R.tables rows.now) known.now.codes.now known.now.edges.now row.now source.now access.way access.cost) }
    ensures share { IfOk result (λ access. access.cost ≤ share (R.tables rows.now) row.now.cells source.now) }
{
    let mut best = by_constants(alloc, rows, row, source)?;
    for p in 0..row.cells.len() {
        best = by_variable(alloc, rows, row, source, known, p, best)?;
    }
    Ok(best)
}

/// The least number of stored rows that agree with one constant of the row, over its sources together.
pub fn share_of<R: Rows>(rows: &R, row: &TaskRow) -> usize
    requires { HasSources (R.tables rows.now) row.now }
{
    let mut share = 0usize;
    for source in row.sources.as_slice() {
        share = share.saturating_add(cheapest_of(rows, row, source).cost);
    }
    share
}
