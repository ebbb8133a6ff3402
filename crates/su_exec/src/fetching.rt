//! The candidates of each row, fetched once.
ghost use Rattle.std.specs.Prelude.{◌≡◌, ◌<◌, ◌≤◌, ◌+◌, [], map, length, All, IfOk};
ghost use Rattle.su_rel.specs.Stored.{IsRelation};
ghost use Rattle.su_index.specs.Tables.{table_at};
ghost use Rattle.su_reduce.specs.Codes.{decode, Extends};
ghost use Rattle.su_reduce.specs.Shapes.{IsShape};
ghost use Rattle.su_exec.specs.inside.Coded.{AreCoded, AreFetched, IsCoded, IsRowEdge, picked};
ghost use Rattle.su_reduce.specs.Sheets.{AreBelow};
ghost use Rattle.su_exec.specs.Outputs.{values_at};
ghost use Rattle.su_exec.specs.Shares.{row_share, share, task_share};
ghost use Rattle.su_exec.specs.Tasks.{FitsTables, HasSources};
ghost use Rattle.su_exec.specs.inside.Gatherings.{Gathers, GathersRow, GathersSource, IsFromPositions, IsFromSource, IsTakenFor};

use crate::access::{Known, Way, access_of, share_of};
use crate::candidates::Candidates;
use crate::connecting::own_labels;
use crate::gathered::Gathered;
use crate::places::is_in;
use crate::tasks::{Source, Task, TaskRow};
use std::alloc::{AllocError, Global};
use su_base::{List, Row};
use su_index::Rows;
use su_reduce::{Codes, Columns, Shape, fits, shape_of, value_at};
use su_tableau::Sym;

/// A row that candidates are fetched for, its shape, and one of its sources.
#[derive(Clone, Copy)]
struct Aim<'a> {
    row: &'a TaskRow,
    shape: &'a Shape,
    source: &'a Source,
}

/// Puts in the codes of the stored row's values at these places.
fn code_row(
    alloc: Global,
    codes: &mut Codes,
    firsts: &[usize],
    columns: &List<u8>,
    stored: &Row,
    cells: &mut Vec<u32>,
) -> Result<(), AllocError>
    requires firsts { AreBelow firsts.now (length columns.now) }
    requires within { All (λ column. column < length stored.now) columns.now }
    requires empty { cells.old.items ≡ [] }
    ensures codes { IfOk result (λ _. Extends codes.old codes.new) }
    ensures coded { IfOk result (λ _. AreBelow cells.new.items (length codes.new)) }
    ensures values { IfOk result (λ _. map (decode codes.new) cells.new.items ≡ picked firsts.now (values_at columns.now stored.now)) }
{
    for first in firsts {
        let code = codes.code(alloc, value_at(&Columns::Listed(columns), stored, *first))?;
        cells.push(code)?;
    }
    Ok(())
}

/// Puts in the codes of the stored row's values at the variables, where it fits the cells.
fn select(
    alloc: Global,
    codes: &mut Codes,
    aim: &Aim,
    stored: &Row,
    out: &mut Gathered,
) -> Result<(), AllocError>
    requires columns { length aim.now.source.now.columns ≡ length aim.now.row.now.cells }
    requires within { All (λ column. column < length stored.now) aim.now.source.now.columns }
    requires shape { IsShape aim.now.row.now.cells aim.now.shape.now }
    requires width { out.old.rows.width ≡ length aim.now.shape.now.firsts.items }
    requires coded { AreCoded codes.old out.old.rows.rows }
    ensures width { IfOk result (λ _. out.new.rows.width ≡ out.old.rows.width) }
    ensures gathered { IfOk result (λ _. Gathers (IsTakenFor aim.now stored.now) codes.old out.old codes.new out.new) }
{
    let columns = &aim.source.columns;
    if !fits(&aim.row.cells, aim.shape, &Columns::Listed(columns), stored) {
        return Ok(());
    }
    out.cells.clear();
    code_row(
        alloc,
        codes,
        &aim.shape.firsts,
        columns,
        stored,
        &mut out.cells,
    )?;
    out.rows.add(alloc, &out.cells)?;
    Ok(())
}

/// Selects from one row of the source's table.
fn fetch_one<R: Rows>(
    alloc: Global,
    rows: &mut R,
    codes: &mut Codes,
    aim: &Aim,
    position: usize,
    out: &mut Gathered,
) -> Result<(), AllocError>
    requires source { FitsTables (R.tables rows.old) (length aim.now.row.now.cells) aim.now.source.now }
    requires relation { IsRelation (table_at (R.tables rows.old) aim.now.source.now.relation) }
    requires position { position < length (table_at (R.tables rows.old) aim.now.source.now.relation).rows }
    requires shape { IsShape aim.now.row.now.cells aim.now.shape.now }
    requires width { out.old.rows.width ≡ length aim.now.shape.now.firsts.items }
    requires coded { AreCoded codes.old out.old.rows.rows }
    ensures width { IfOk result (λ _. out.new.rows.width ≡ out.old.rows.width) }
    ensures gathered { IfOk result (λ _. GathersRow (R.tables rows.old) aim.now position codes.old out.old codes.new out.new) }
    ensures tables { R.tables rows.new ≡ R.tables rows.old }
    ensures fetches { R.fetches rows.new ≤ R.fetches rows.old + 1 }
{
    let stored = rows.fetch(aim.source.relation, position);
    select(alloc, codes, aim, stored, out)?;
    Ok(())
}

/// Selects from all rows of the source's table.
fn fetch_all<R: Rows>(
    alloc: Global,
    rows: &mut R,
    codes: &mut Codes,
    aim: &Aim,
    out: &mut Gathered,
) -> Result<(), AllocError>
    requires source { FitsTables (R.tables rows.old) (length aim.now.row.now.cells) aim.now.source.now }
    requires shape { IsShape aim.now.row.now.cells aim.now.shape.now }
    requires width { out.old.rows.width ≡ length aim.now.shape.now.firsts.items }
    requires coded { AreCoded codes.old out.old.rows.rows }
    ensures width { IfOk result (λ _. out.new.rows.width ≡ out.old.rows.width) }
    ensures gathered { IfOk result (λ _. Gathers (IsFromSource (R.tables rows.old) aim.now) codes.old out.old codes.new out.new) }
    ensures tables { R.tables rows.new ≡ R.tables rows.old }
    ensures fetches { R.fetches rows.new ≤ R.fetches rows.old + length (table_at (R.tables rows.old) aim.now.source.now.relation).rows }
{
    for i in 0..rows.len(aim.source.relation) {
        fetch_one(alloc, rows, codes, aim, i, out)?;
    }
    Ok(())
}

/// Selects from the rows of the source's table at the positions.
fn fetch_listed<R: Rows>(
    alloc: Global,
    rows: &mut R,
    codes: &mut Codes,
    aim: &Aim,
    positions: &[usize],
    out: &mut Gathered,
) -> Result<(), AllocError>
    requires source { FitsTables (R.tables rows.old) (length aim.now.row.now.cells) aim.now.source.now }
    requires positions { All (λ p. p < length (table_at (R.tables rows.old) aim.now.source.now.relation).rows) positions.now }
    requires shape { IsShape aim.now.row.now.cells aim.now.shape.now }
    requires width { out.old.rows.width ≡ length aim.now.shape.now.firsts.items }
    requires coded { AreCoded codes.old out.old.rows.rows }
    ensures width { IfOk result (λ _. out.new.rows.width ≡ out.old.rows.width) }
    ensures gathered { IfOk result (λ _. Gathers (IsFromPositions (R.tables rows.old) aim.now positions.now) codes.old out.old codes.new out.new) }
    ensures tables { R.tables rows.new ≡ R.tables rows.old }
    ensures fetches { R.fetches rows.new ≤ R.fetches rows.old + length positions.now }
{
    // For the proof: the table is a relation.
    let _count = rows.len(aim.source.relation);
    for position in positions {
        fetch_one(alloc, rows, codes, aim, *position, out)?;
    }
    Ok(())
}

/// Selects from the rows of the source's table that the candidates so far leave.
fn fetch_source<R: Rows>(
    alloc: Global,
    rows: &mut R,
    codes: &mut Codes,
    aim: &Aim,
    edges: &[Candidates],
    out: &mut Gathered,
) -> Result<(), AllocError>
    requires source { FitsTables (R.tables rows.old) (length aim.now.row.now.cells) aim.now.source.now }
    requires shape { IsShape aim.now.row.now.cells aim.now.shape.now }
    requires width { out.old.rows.width ≡ length aim.now.shape.now.firsts.items }
    requires coded { AreCoded codes.old out.old.rows.rows }
    ensures width { IfOk result (λ _. out.new.rows.width ≡ out.old.rows.width) }
    ensures gathered { IfOk result (λ _. GathersSource (R.tables rows.old) edges.now aim.now codes.old out.old codes.new out.new) }
    ensures tables { R.tables rows.new ≡ R.tables rows.old }
    ensures fetches { R.fetches rows.new ≤ R.fetches rows.old + share (R.tables rows.old) aim.now.row.now.cells aim.now.source.now }
{
    let known = Known { codes, edges };
    let access = access_of(alloc, rows, aim.row, aim.source, &known)?;
    match &access.way {
        Way::All => {
            fetch_all(alloc, rows, codes, aim, out)?;
            Ok(())
        }
        Way::Listed(positions) => {
            fetch_listed(alloc, rows, codes, aim, positions, out)?;
            Ok(())
        }
    }
}

/// The candidates of the row that those so far leave.
fn candidates_of<R: Rows>(
    alloc: Global,
    rows: &mut R,
    codes: &mut Codes,
    row: &TaskRow,
    edges: &[Candidates],
) -> Result<Candidates, AllocError>
    requires sources { HasSources (R.tables rows.old) row.now }
    requires coded { All (IsCoded codes.old) edges.now }
    ensures edge { IfOk result (IsRowEdge (R.tables rows.old) codes.new edges.now row.now) }
    ensures codes { IfOk result (λ _. Extends codes.old codes.new) }
    ensures tables { R.tables rows.new ≡ R.tables rows.old }
    ensures fetches { R.fetches rows.new ≤ R.fetches rows.old + row_share (R.tables rows.old) row.now }
{
    let shape = shape_of(alloc, &row.cells)?;
    let mut out = Gathered::new(alloc, shape.firsts.len())?;
    for source in row.sources.as_slice() {
        let aim = Aim {
            row,
            shape: &shape,
            source,
        };
        fetch_source(alloc, rows, codes, &aim, edges, &mut out)?;
    }
    Ok(Candidates::apart(shape.vars, out.rows.into_rows()))
}

/// Whether a variable of the row is in one of the candidates.
fn is_reached(row: &TaskRow, edges: &[Candidates]) -> bool {
    row.cells.as_slice().iter().any(|cell| match cell {
        Sym::Const(_) => false,
        Sym::Var(k) => edges.iter().any(|edge| is_in(edge.vars(), *k)),
    })
}

/// Where the row to take next stands among those left: of those that are reached, or else of all, the
/// one with the smallest share.
fn next_row(task: &Task, shares: &[usize], left: &[usize], edges: &[Candidates]) -> usize
    requires { 0 < length left.now }
    ensures { result < length left.now }
{
    let mut best = 0;
    let mut least = (true, usize::MAX);
    for p in 0..left.len() {
        let i = left[p];
        if i < shares.len() && i < task.rows.len() && (least.0 || shares[i] < least.1) {
            let rank = (!is_reached(task.rows.get(i), edges), shares[i]);
            if rank < least {
                least = rank;
                best = p;
            }
        }
    }
    best
}

/// The share of each row.
fn shares_of<R: Rows>(alloc: Global, task: &Task, rows: &R) -> Result<Vec<usize>, AllocError>
    requires { All (HasSources (R.tables rows.now)) task.now.rows }
{
    let mut shares = Vec::new(alloc);
    for row in task.rows.as_slice() {
        shares.push(share_of(rows, row))?;
    }
    Ok(shares)
}

/// The candidates of all rows, or none where some row has no candidates.
pub fn fetch_rows<R: Rows>(
    alloc: Global,
    task: &Task,
    rows: &mut R,
    codes: &mut Codes,
) -> Result<Option<Vec<Candidates>>, AllocError>
    requires { All (HasSources (R.tables rows.old)) task.now.rows }
    ensures edges { IfOk result (AreFetched (R.tables rows.old) codes.new task.now) }
    ensures tables { R.tables rows.new ≡ R.tables rows.old }
    ensures fetches { R.fetches rows.new ≤ R.fetches rows.old + task_share (R.tables rows.old) task.now }
{
    let shares = shares_of(alloc, task, rows)?;
    let mut left = own_labels(alloc, task.rows.len())?;
    let mut edges = Vec::new(alloc);
    while left.len() > 0 {
        let p = next_row(task, &shares, &left, &edges);
        let i = left.remove(p);
        let edge = candidates_of(alloc, rows, codes, task.rows.get(i), &edges)?;
        if edge.len() == 0 {
            return Ok(None);
        }
        edges.push(edge)?;
    }
    Ok(Some(edges))
}
