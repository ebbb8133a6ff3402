//! Comparisons as ranges: rows go that the least or greatest value of the other side already excludes.
ghost use Rattle.std.specs.Prelude.{◌≡◌, ◌<◌, length, IfSome, IfOk};
ghost use Rattle.su_base.specs.declared.values.Value.{Value as AValue};
ghost use Rattle.su_where.specs.Operator.{compares};
ghost use Rattle.su_exec.specs.inside.Checks.{IsTestIn, all_hold, check_holds, test_passes};
ghost use Rattle.su_exec.specs.inside.Ranges.{AreCut, ArePassing, IsBound, IsSide, IsWidest, Widens, meets, meets_code};

use crate::candidates::Candidates;
use crate::checks::{Check, CodedSymbol, Spot, Test, passes_one};
use crate::places::place_of;
use std::alloc::{AllocError, Global};
use su_reduce::{Codes, Sheet};
use su_where::Op;

/// By what the widest value on the right of a comparison is told, where it is one of order.
fn side_of(op: Op) -> Option<Op>
    ensures { IfSome result (IsSide op) }
{
    match op {
        Op::Less | Op::LessEqual => Some(Op::Less),
        Op::Greater | Op::GreaterEqual => Some(Op::Greater),
        Op::Equal | Op::NotEqual => None,
    }
}

/// The operator with its sides exchanged.
fn turned(op: Op) -> Op
    ensures { (x y : AValue) → compares result y x ≡ compares op x y }
{
    match op {
        Op::Equal => Op::Equal,
        Op::NotEqual => Op::NotEqual,
        Op::Less => Op::Greater,
        Op::LessEqual => Op::GreaterEqual,
        Op::Greater => Op::Less,
        Op::GreaterEqual => Op::LessEqual,
    }
}

/// Of two codes the one whose value more values meet.
fn wider(codes: &Codes, side: Op, best: u32, code: u32) -> u32
    ensures best { (op : Op) → IsSide op side → Widens codes.now op best result }
    ensures code { (op : Op) → IsSide op side → Widens codes.now op code result }
{
    if side.compares(codes.value(best), codes.value(code)) {
        return code;
    }
    best
}

/// The code at the place whose value the most values meet.
fn widest(codes: &Codes, edge: &Candidates, place: usize, side: Op) -> Option<u32>
    requires { place < length edge.now.vars }
    ensures { IfSome result (IsWidest codes.now edge.now place side) }
{
    if edge.len() == 0 {
        return None;
    }
    let mut best = edge.rows().row(0)[place];
    for i in 0..edge.len() {
        best = wider(codes, side, best, edge.rows().row(i)[place]);
    }
    Some(best)
}

/// A code whose value is met by what meets the variable's, by the first edge with the variable.
fn bound_for(codes: &Codes, edges: &[Candidates], y: u32, side: Op) -> Option<u32>
    ensures { IfSome result (IsBound codes.now edges.now y side) }
{
    for edge in edges {
        if let Some(place) = place_of(edge.vars(), y) {
            return widest(codes, edge, place, side);
        }
    }
    None
}

/// The rows that pass the test.
fn passing(alloc: Global, codes: &Codes, edge: &Candidates, test: Test) -> Result<Sheet, AllocError>
    requires { IsTestIn (length edge.now.vars) 0 test }
    ensures width { IfOk result (λ rows. rows.width ≡ length edge.now.vars) }
    ensures rows { IfOk result (λ rows. ArePassing codes.now edge.now test (length edge.now.rows) rows.rows) }
{
    let mut rows = Sheet::new(alloc, edge.vars().len());
    for i in 0..edge.len() {
        let row = edge.rows().row(i);
        let passes = passes_one(codes, test, row, &[]);
        rows.push_if(passes, row)?;
    }
    Ok(rows)
}

/// Whether all rows pass the test.
fn all_pass(codes: &Codes, edge: &Candidates, test: Test) -> bool
    requires { IsTestIn (length edge.now.vars) 0 test }
{
    for i in 0..edge.len() {
        if !passes_one(codes, test, edge.rows().row(i), &[]) {
            return false;
        }
    }
    true
}

/// The rows of the i-th go whose value of the variable doesn't meet the bound.
fn cut_edge(
    alloc: Global,
    codes: &Codes,
    edges: &mut Vec<Candidates>,
    i: usize,
    x: u32,
    op: Op,
    bound: u32,
) -> Result<(), AllocError>
    requires { i < length edges.old.items }
    ensures { IfOk result (λ _. AreCut (meets_code codes.now x op bound) edges.old.items edges.new.items) }
{
    let Some(place) = place_of(edges[i].vars(), x) else {
        return Ok(());
    };
    let test = Test {
        left: Spot::Left(place),
        op,
        right: Spot::Code(bound),
    };
    if all_pass(codes, &edges[i], test) {
        return Ok(());
    }
    let rows = passing(alloc, codes, &edges[i], test)?;
    let cut = edges[i].with_rows(alloc, rows)?;
    edges[i] = cut;
    Ok(())
}

/// The rows go whose value of the variable x meets no value of y.
fn cut_by(
    alloc: Global,
    codes: &Codes,
    edges: &mut Vec<Candidates>,
    x: u32,
    op: Op,
    y: u32,
) -> Result<(), AllocError>
    ensures { IfOk result (λ _. AreCut (meets codes.now x op y) edges.old.items edges.new.items) }
{
    let Some(side) = side_of(op) else {
        return Ok(());
    };
    let Some(bound) = bound_for(codes, edges, y, side) else {
        return Ok(());
    };
    for i in 0..edges.len() {
        cut_edge(alloc, codes, edges, i, x, op, bound)?;
    }
    Ok(())
}

/// The rows go that the comparison excludes, whatever its other side is.
fn cut_by_check(
    alloc: Global,
    codes: &Codes,
    edges: &mut Vec<Candidates>,
    check: Check,
) -> Result<(), AllocError>
    ensures { IfOk result (λ _. AreCut (λ v. check_holds codes.now v check) edges.old.items edges.new.items) }
{
    let (CodedSymbol::Variable(x), CodedSymbol::Variable(y)) = (check.left, check.right) else {
        return Ok(());
    };
    cut_by(alloc, codes, edges, x, check.op, y)?;
    cut_by(alloc, codes, edges, y, turned(check.op), x)?;
    Ok(())
}

/// The rows go that a comparison excludes, one comparison after another.
fn cut_by_all(
    alloc: Global,
    codes: &Codes,
    edges: &mut Vec<Candidates>,
    checks: &[Check],
) -> Result<(), AllocError>
    ensures { IfOk result (λ _. AreCut (all_hold codes.now checks.now) edges.old.items edges.new.items) }
{
    for check in checks {
        cut_by_check(alloc, codes, edges, *check)?;
    }
    Ok(())
}

/// How many rows there are.
fn count(edges: &[Candidates]) -> usize {
    let mut count = 0usize;
    for edge in edges {
        count = count.saturating_add(edge.len());
    }
    count
}

/// About how many rows may be looked at where ranges go on to shrink.
const WORK: usize = 4_000_000;

/// The rows go that comparisons exclude, until none does or that took long enough.
pub fn narrow(
    alloc: Global,
    codes: &Codes,
    edges: &mut Vec<Candidates>,
    checks: &[Check],
) -> Result<(), AllocError>
    ensures { IfOk result (λ _. AreCut (all_hold codes.now checks.now) edges.old.items edges.new.items) }
{
    let rounds = WORK / count(edges).saturating_add(1);
    for _ in 0..rounds.saturating_add(1) {
        let before = count(edges);
        cut_by_all(alloc, codes, edges, checks)?;
        if count(edges) == before {
            return Ok(());
        }
    }
    Ok(())
}
