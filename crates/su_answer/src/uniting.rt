//! Rows of several lists, ascending, each once.
ghost use Rattle.std.specs.Prelude.{◌≡◌, ◌↔◌, ◌⊎◌, ◌<◌, ◌≤◌, List, [], All, Contains, IsTrue, IfOk, IfErr, IfSome, IsSome, MatchOption, length};
ghost use Rattle.std.specs.List.Sorted.{IsStrictlySortedBy};
ghost use Rattle.su_base.specs.declared.values.Value.{Value as AValue};
ghost use Rattle.su_base.specs.Value.{compare_lists};
ghost use Rattle.su_answer.specs.declared.faults.AnswerFault.TheVariants.{Limit};
ghost use Rattle.su_rel.specs.MoreThan.{AreMoreThan};
ghost use Rattle.su_answer.specs.inside.Executed.{ArePastLimit, IsInSome};
ghost use Rattle.su_answer.specs.inside.Merged.{compare_last, IsGreatestOf};

use crate::executing::MOST;
use crate::faults::AnswerFault;
use crate::found::Found;
use std::alloc::Global;
use std::cmp::Ordering;
use su_base::{List, Row, compare_rows};

/// Which of two lists has the greater last row; an empty list is before all others.
fn compare_last(left: &[Row], right: &[Row]) -> Ordering
    ensures { result ≡ compare_last left.now right.now }
{
    match (left.last(), right.last()) {
        (Some(a), Some(b)) => compare_rows(a, b),
        (Some(_), None) => Ordering::Greater,
        (None, Some(_)) => Ordering::Less,
        (None, None) => Ordering::Equal,
    }
}

/// Takes the greatest row of two lists that ascend, from both where both have it.
fn take_greatest(left: &mut List<Row>, right: &mut List<Row>) -> Option<Row>
    requires left { IsStrictlySortedBy compare_lists left.old }
    requires right { IsStrictlySortedBy compare_lists right.old }
    ensures { MatchOption result ((left.old ≡ []) × (right.old ≡ [])) (IsGreatestOf left.old right.old left.new right.new) }
{
    match compare_last(left.as_slice(), right.as_slice()) {
        Ordering::Less => right.pop(),
        Ordering::Greater => left.pop(),
        Ordering::Equal => {
            right.pop();
            left.pop()
        }
    }
}

/// The place of the row among these from `from` on, which ascend.
fn place_of(rows: &[Row], row: &Row, from: usize) -> Option<usize>
    ensures { IfSome result (λ place. (place < length rows.now) × Contains rows.now row.now) }
{
    for i in from..rows.len() {
        match compare_rows(&rows[i], row) {
            Ordering::Less => {}
            Ordering::Equal => return Some(i),
            Ordering::Greater => return None,
        }
    }
    None
}

/// Whether each row is among the others, of which there are no more than an answer may have. Both
/// ascend, and each is gone through once at most.
fn are_among(rows: &[Row], others: &[Row]) -> bool
    ensures among { IsTrue result → (h : List AValue) → Contains rows.now h → Contains others.now h }
    ensures few { IsTrue result → length others.now ≤ 1000000 }
{
    if rows.len() > others.len() || others.len() as u64 > MOST {
        return false;
    }
    let mut from = 0;
    for row in rows {
        let Some(place) = place_of(others, row, from) else {
            return false;
        };
        from = place + 1;
    }
    true
}

/// The rows of both lists, ascending, each once; `Limit` where there are more than an answer may have.
/// They are merged from the end, and no more rows are put together than an answer may have.
fn merged(alloc: Global, rows: List<Row>, more: List<Row>) -> Result<List<Row>, AnswerFault>
    requires rows { IsStrictlySortedBy compare_lists rows }
    requires more { IsStrictlySortedBy compare_lists more }
    ensures members { IfOk result (λ all. (h : List AValue) → Contains all h ↔ (Contains rows h ⊎ Contains more h)) }
    ensures ascending { IfOk result (λ all. IsStrictlySortedBy compare_lists all) }
    ensures few { IfOk result (λ all. length all ≤ 1000000) }
    ensures limit { IfErr result (λ fault. fault ≡ Limit → AreMoreThan 1000000 (λ h. Contains rows h ⊎ Contains more h)) }
{
    let (mut left, mut right) = (rows, more);
    let mut merged = Vec::with_capacity(alloc, left.len().max(right.len()))?;
    while let Some(row) = take_greatest(&mut left, &mut right) {
        if merged.len() as u64 == MOST {
            return Err(AnswerFault::Limit);
        }
        let Ok(()) = merged.push(row) else {
            return Err(AnswerFault::NoMemory);
        };
    }
    merged.reverse();
    Ok(List::from_vec(merged))
}

/// The rows of both lists, ascending, each once; `Limit` where there are more than an answer may have.
/// Where the one has all rows of the other, it is handed on as it is, and takes no memory.
fn united(alloc: Global, rows: List<Row>, more: List<Row>) -> Result<List<Row>, AnswerFault>
    requires rows { IsStrictlySortedBy compare_lists rows }
    requires more { IsStrictlySortedBy compare_lists more }
    ensures members { IfOk result (λ all. (h : List AValue) → Contains all h ↔ (Contains rows h ⊎ Contains more h)) }
    ensures ascending { IfOk result (λ all. IsStrictlySortedBy compare_lists all) }
    ensures few { IfOk result (λ all. length all ≤ 1000000) }
    ensures limit { IfErr result (λ fault. fault ≡ Limit → AreMoreThan 1000000 (λ h. Contains rows h ⊎ Contains more h)) }
{
    if are_among(more.as_slice(), rows.as_slice()) {
        return Ok(rows);
    }
    if are_among(rows.as_slice(), more.as_slice()) {
        return Ok(more);
    }
    merged(alloc, rows, more)
}

/// The rows of all lists and those so far, ascending, each once; `Limit` where one list is missing, or
/// where there are more rows than an answer may have.
pub fn gathered(
    alloc: Global,
    so_far: List<Row>,
    lists: List<Found>,
) -> Result<List<Row>, AnswerFault>
    requires ascending { IsStrictlySortedBy compare_lists so_far }
    requires few { length so_far ≤ 1000000 }
    requires lists { All (λ found. IfSome found.rows (IsStrictlySortedBy compare_lists)) lists }
    ensures rows { IfOk result (λ rows. (h : List AValue) → Contains rows h ↔ (Contains so_far h ⊎ IsInSome lists h)) }
    ensures ascending { IfOk result (λ rows. IsStrictlySortedBy compare_lists rows) }
    ensures few { IfOk result (λ rows. length rows ≤ 1000000) }
    ensures all { IfOk result (λ _. All (λ found. IsSome found.rows) lists) }
    ensures limit { IfErr result (λ fault. fault ≡ Limit → ArePastLimit so_far lists) }
{
    let mut lists = lists;
    let mut all = so_far;
    while let Some(list) = lists.pop() {
        let Found { rows } = list;
        let Some(more) = rows else {
            return Err(AnswerFault::Limit);
        };
        all = united(alloc, all, more)?;
    }
    Ok(all)
}
