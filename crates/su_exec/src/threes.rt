//! Which three edges of a cycle to join at once, and in which blocks of the first one's rows. No answer
//! depends on it.
ghost use Rattle.std.specs.Prelude.{◌≡◌, ◌≢◌, ◌<◌, ◌+◌, length, All, IfOk, IfSome};
ghost use Rattle.su_reduce.specs.Sheets.{AreBelow};

use crate::candidates::Candidates;
use crate::order::{find_ear, shares};
use crate::places::{after, is_in, shared_places};
use std::alloc::{AllocError, Global};
use su_reduce::bucket;

/// How many blocks there are: the rows of even ones meet the second edge first, those of odd ones the third.
pub const BLOCKS: usize = 64;

/// How many matches the rows of a block may have at least, so that hashing them is worth it.
const LEAST: usize = 65536;

/// Which edges no ear order takes out.
fn cyclic(alloc: Global, edges: &[Candidates]) -> Result<Vec<bool>, AllocError> {
    let mut left = vec![in alloc; true; edges.len()]?;
    for _ in 0..edges.len() {
        let Some((i, _)) = find_ear(edges, &left) else {
            return Ok(left);
        };
        if i < left.len() {
            left[i] = false;
        }
    }
    Ok(left)
}

/// How many edges no ear order takes out.
pub fn cyclic_count(alloc: Global, edges: &[Candidates]) -> Result<usize, AllocError> {
    let left = cyclic(alloc, edges)?;
    Ok(left.iter().filter(|is_left| **is_left).count())
}

/// Whether the second has a variable that the first has not.
fn brings(a: &Candidates, b: &Candidates) -> bool {
    !b.vars().iter().all(|x| is_in(a.vars(), *x))
}

/// Whether each variable that the second brings the first is one of the third.
fn brings_only(a: &Candidates, b: &Candidates, c: &Candidates) -> bool {
    for x in b.vars() {
        if !is_in(a.vars(), *x) && !is_in(c.vars(), *x) {
            return false;
        }
    }
    true
}

/// Whether both share variables with the first, and bring it the same other ones.
fn closes(a: &Candidates, b: &Candidates, c: &Candidates) -> bool {
    shares(a, b) && shares(a, c) && brings(a, b) && brings_only(a, b, c) && brings_only(a, c, b)
}

/// Whether the edge is one of those.
fn is_left(left: &[bool], i: usize) -> bool {
    i < left.len() && left[i]
}

/// Two of the edges that are left which bring the i-th the same variables.
fn closing(edges: &[Candidates], left: &[bool], i: usize) -> Option<(usize, usize)>
    requires { i < length edges.now }
    ensures { IfSome result (λ p. (p.0 < p.1) × (p.1 < length edges.now) × (p.0 ≢ i) × (p.1 ≢ i)) }
{
    for k in 0..edges.len() {
        for j in 0..k {
            if j != i
                && k != i
                && is_left(left, j)
                && is_left(left, k)
                && closes(&edges[i], &edges[j], &edges[k])
            {
                return Some((j, k));
            }
        }
    }
    None
}

/// Three edges of a cycle, of which the second and the third bring the first the same variables: where
/// each stands once those before it are taken out.
pub fn three_of(
    alloc: Global,
    edges: &[Candidates],
) -> Result<Option<(usize, usize, usize)>, AllocError>
    ensures { IfOk result (λ three. IfSome three (λ p. (p.0 < length edges.now) × (p.1 + 1 < length edges.now) × (p.2 + 2 < length edges.now))) }
{
    let left = cyclic(alloc, edges)?;
    for i in 0..edges.len() {
        if is_left(&left, i) {
            if let Some((j, k)) = closing(edges, &left, i) {
                return Ok(Some((i, after(i, k), after(i, j))));
            }
        }
    }
    Ok(None)
}

/// How many rows each bucket of these places has.
fn counts(
    alloc: Global,
    edge: &Candidates,
    places: &[usize],
    buckets: usize,
) -> Result<Vec<usize>, AllocError>
    requires below { AreBelow places.now (length edge.now.vars) }
    requires some { 0 < buckets }
    ensures { IfOk result (λ counts. length counts.items ≡ buckets) }
{
    let mut counts: Vec<usize> = vec![in alloc; 0; buckets]?;
    let rows = edge.rows();
    for i in 0..rows.len() {
        let h = bucket(rows.row(i), places, buckets);
        counts[h] = counts[h].saturating_add(1);
    }
    Ok(counts)
}

/// Per row of the first how many rows of the second it may meet.
fn matches(alloc: Global, a: &Candidates, b: &Candidates) -> Result<Vec<usize>, AllocError>
    ensures { IfOk result (λ met. length met.items ≡ length a.now.rows) }
{
    let mut left = Vec::new(alloc);
    let mut right = Vec::new(alloc);
    shared_places(a.vars(), b.vars(), &mut left, &mut right)?;
    let buckets = b.len().saturating_mul(2).max(1);
    let counts = counts(alloc, b, &right, buckets)?;
    let mut met = Vec::with_capacity(alloc, a.len())?;
    let rows = a.rows();
    for i in 0..rows.len() {
        met.push(counts[bucket(rows.row(i), &left, buckets)])?;
    }
    Ok(met)
}

/// How many matches a block is to have.
fn share(first: &[usize], second: &[usize], rows: usize) -> usize
    requires { length first.now ≡ length second.now }
    ensures { 0 < result }
{
    let mut sum = 0usize;
    for i in 0..first.len() {
        sum = sum.saturating_add(first[i].min(second[i]));
    }
    (sum / (BLOCKS / 2 - 1)).max(rows).max(LEAST)
}

/// 0 where there are no more matches in the second than in the third, else 1.
fn side_of(first: usize, second: usize) -> usize
    ensures { result < 2 }
{
    if first <= second { 0 } else { 1 }
}

/// The block of a row on this side, before which so many matches are in blocks.
fn block_of(sum: usize, share: usize, side: usize) -> usize
    requires share { 0 < share }
    requires side { side < 2 }
    ensures { result < 64 }
{
    (sum / share).min(BLOCKS / 2 - 1) * 2 + side
}

/// The block of each row of the first: even where it has no more matches in the second than in the third.
/// The matches of a block are about as many as there are rows, or a thirtieth of all.
pub fn blocks_of(
    alloc: Global,
    a: &Candidates,
    b: &Candidates,
    c: &Candidates,
) -> Result<Vec<usize>, AllocError>
    ensures length { IfOk result (λ blocks. length blocks.items ≡ length a.now.rows) }
    ensures below { IfOk result (λ blocks. All (λ n. n < 64) blocks.items) }
{
    let first = matches(alloc, a, b)?;
    let second = matches(alloc, a, c)?;
    let rows = a.len().saturating_add(b.len()).saturating_add(c.len());
    let share = share(&first, &second, rows);
    let mut sums = [0usize, 0];
    let mut blocks = Vec::with_capacity(alloc, a.len())?;
    for i in 0..first.len() {
        let side = side_of(first[i], second[i]);
        let block = block_of(sums[side], share, side);
        sums[side] = sums[side].saturating_add(first[i].min(second[i]));
        blocks.push(block)?;
    }
    Ok(blocks)
}
