//! The join of two lists of rows of codes, of which some columns are kept.
ghost use Rattle.std.specs.Prelude.{◌≡◌, ◌↔◌, ◌⊎◌, ℕ, ◌+◌, ◌<◌, List, ◌++◌, length, Contains, IsTrue, IfOk, MatchBool};
ghost use Rattle.su_reduce.specs.Chains.{IsChain};
ghost use Rattle.su_base.specs.Lists.{AllDiffer};
ghost use Rattle.su_reduce.specs.Sheets.{pick, AreBelow};
ghost use Rattle.su_exec.specs.inside.Additions.{AddsOnly, HasEachUpTo};
ghost use Rattle.su_exec.specs.inside.Joins.{IsJoin, IsUpTo};
ghost use Rattle.su_exec.specs.inside.Plans.{AreHeads, FitsPlan, GivesBy, IsMade, columns_of, made_of, passes_of};

use crate::checks::{Test, passes};
use crate::gathered::Gathered;
use std::alloc::{AllocError, Global};
use su_reduce::{Codes, Sheet, bucket, fill, same_key};

/// Which columns have to be equal, what else a pair of rows has to pass, and which columns are kept.
#[derive(Drop)]
pub struct Plan {
    pub left_key: Vec<usize>,
    pub right_key: Vec<usize>,
    pub left_out: Vec<usize>,
    pub right_out: Vec<usize>,
    pub tests: Vec<Test>,
}

/// Whether there are more than the bound.
pub fn is_past(count: usize, most: Option<usize>) -> bool
    ensures { MatchBool result (¬ IsUpTo most count) (IsUpTo most count) }
{
    match most {
        Some(most) => count > most,
        None => false,
    }
}

/// Rows in buckets by their keys: per bucket the number after its last row, and per row the number after
/// the row before it in its bucket.
#[derive(Clone, Copy)]
struct Bucketed<'a> {
    rows: &'a Sheet,
    heads: &'a [usize],
    next: &'a [usize],
}

/// Puts the cells, or the variables, at these places after what is there.
pub fn add_cells(cells: &mut Vec<u32>, row: &[u32], places: &[usize]) -> Result<(), AllocError>
    requires { AreBelow places.now (length row.now) }
    ensures { IfOk result (λ _. cells.new.items ≡ cells.old.items ++ pick places.now row.now) }
{
    for p in places {
        cells.push(row[*p])?;
    }
    Ok(())
}

/// The row that the plan makes of two rows.
fn make_row(plan: &Plan, row: &[u32], other: &[u32], cells: &mut Vec<u32>) -> Result<(), AllocError>
    requires { FitsPlan plan.now (length row.now) (length other.now) }
    ensures { IfOk result (λ _. cells.new.items ≡ made_of plan.now row.now other.now) }
{
    cells.clear();
    add_cells(cells, row, &plan.left_out)?;
    add_cells(cells, other, &plan.right_out)
}

/// Whether the two rows have one key and pass the tests.
fn matches(codes: &Codes, plan: &Plan, row: &[u32], other: &[u32]) -> bool
    requires { FitsPlan plan.now (length row.now) (length other.now) }
    ensures { IsTrue result ↔ IsMade codes.now plan.now row.now other.now (made_of plan.now row.now other.now) }
{
    same_key(row, &plan.left_key, other, &plan.right_key) && passes(codes, &plan.tests, row, other)
}

/// Adds what the two rows make, where they have one key and pass the tests, and answers whether they do.
fn add_pair(
    alloc: Global,
    codes: &Codes,
    plan: &Plan,
    row: &[u32],
    other: &[u32],
    out: &mut Gathered,
) -> Result<bool, AllocError>
    requires fits { FitsPlan plan.now (length row.now) (length other.now) }
    requires wide { out.old.rows.width ≡ length plan.now.left_out.items + length plan.now.right_out.items }
    ensures width { out.new.rows.width ≡ out.old.rows.width }
    ensures kept { (r : List ℕ) → Contains out.old.rows.rows r → Contains out.new.rows.rows r }
    ensures only { (r : List ℕ) → Contains out.new.rows.rows r → Contains out.old.rows.rows r ⊎ IsMade codes.now plan.now row.now other.now r }
    ensures had { IfOk result (λ _. (r : List ℕ) → IsMade codes.now plan.now row.now other.now r → Contains out.new.rows.rows r) }
    ensures added { IfOk result (λ added. IsTrue added → Contains out.new.rows.rows (made_of plan.now row.now other.now)) }
{
    if !matches(codes, plan, row, other) {
        return Ok(false);
    }
    make_row(plan, row, other, &mut out.cells)?;
    out.rows.add(alloc, &out.cells)?;
    Ok(true)
}

/// Adds what the row makes with the rows on the right, until there are more rows than the bound.
fn add_matches(
    alloc: Global,
    codes: &Codes,
    plan: &Plan,
    row: &[u32],
    right: &Bucketed,
    most: Option<usize>,
    out: &mut Gathered,
) -> Result<(), AllocError>
    requires fits { FitsPlan plan.now (length row.now) right.now.rows.now.width }
    requires wide { out.old.rows.width ≡ length plan.now.left_out.items + length plan.now.right_out.items }
    requires some { 0 < length right.now.heads.now }
    requires room { length right.now.next.now ≡ length right.now.rows.now.rows }
    requires heads { AreHeads plan.now right.now.rows.now.rows right.now.heads.now }
    requires next { (h : ℕ) → IsChain right.now.rows.now.rows plan.now.right_key.items (length right.now.heads.now) h right.now.next.now }
    ensures width { out.new.rows.width ≡ out.old.rows.width }
    ensures kept { (r : List ℕ) → Contains out.old.rows.rows r → Contains out.new.rows.rows r }
    ensures only { AddsOnly (GivesBy codes.now plan.now row.now right.now.rows.now.rows) out.old.rows.rows out.new.rows.rows }
    ensures all { IfOk result (λ _. HasEachUpTo most (GivesBy codes.now plan.now row.now right.now.rows.now.rows) out.new.rows.rows) }
{
    let mut at = right.heads[bucket(row, &plan.left_key, right.heads.len())];
    while at > 0 {
        let added = add_pair(alloc, codes, plan, row, right.rows.row(at - 1), out)?;
        if added && plan.right_out.is_empty() {
            return Ok(());
        }
        if is_past(out.rows.len(), most) {
            return Ok(());
        }
        at = right.next[at - 1];
    }
    Ok(())
}

/// The rows that two rows with one key which pass the tests make, each once. Where there are more
/// than the bound, only some of them, but more than the bound.
pub fn join(
    alloc: Global,
    codes: &Codes,
    plan: &Plan,
    left: &Sheet,
    right: &Sheet,
    most: Option<usize>,
) -> Result<Sheet, AllocError>
    requires { FitsPlan plan.now left.now.width right.now.width }
    ensures width { IfOk result (λ out. out.width ≡ length plan.now.left_out.items + length plan.now.right_out.items) }
    ensures join { IfOk result (λ out. IsJoin left.now.rows right.now.rows (columns_of plan.now) (passes_of codes.now plan.now) most out.rows) }
    ensures differ { IfOk result (λ out. AllDiffer out.rows) }
{
    let mut heads = vec![in alloc; 0; right.len().saturating_mul(2).max(1)]?;
    let mut next = vec![in alloc; 0; right.len()]?;
    fill(right, &plan.right_key, &mut heads, &mut next);
    let bucketed = Bucketed {
        rows: right,
        heads: &heads,
        next: &next,
    };
    let mut out = Gathered::new(alloc, plan.left_out.len() + plan.right_out.len())?;
    for i in 0..left.len() {
        add_matches(alloc, codes, plan, left.row(i), &bucketed, most, &mut out)?;
        if is_past(out.rows.len(), most) {
            return Ok(out.rows.into_rows());
        }
    }
    Ok(out.rows.into_rows())
}
