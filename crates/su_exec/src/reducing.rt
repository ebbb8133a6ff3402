//! Semijoins along an order of ears, and ears that are taken out.
ghost use Rattle.std.specs.Prelude.{◌≡◌, ◌≢◌, ◌<◌, ◌+◌, ℕ, true, false, length, All, IfOk, IfSome, IsTrue};
ghost use Rattle.su_exec.specs.inside.Semijoins.{Leaves};
ghost use Rattle.su_exec.specs.inside.Edges.{FitsAll, Same, among, has};

use crate::candidates::{Candidates, partners};
use crate::connecting::own_labels;
use crate::merging::{Body, wanted_by};
use crate::order::{Link, ear_order};
use crate::places::{after, is_in};
use std::alloc::{AllocError, Global};

/// The i-th loses the rows that have no partner in the j-th.
fn reduce_one(
    alloc: Global,
    edges: &mut Vec<Candidates>,
    i: usize,
    j: usize,
) -> Result<(), AllocError>
    ensures same { IfOk result (λ _. Same edges.old.items edges.new.items) }
    ensures length { length edges.new.items ≡ length edges.old.items }
    ensures vars { IfOk result (λ _. (k : ℕ) → among edges.old.items k ≡ true → among edges.new.items k ≡ true) }
{
    if i == j || i >= edges.len() || j >= edges.len() {
        return Ok(());
    }
    let marks = partners(alloc, &edges[i], &edges[j])?;
    edges[i].keep(&marks);
    Ok(())
}

/// Whether one of them has no rows.
pub fn has_empty(edges: &[Candidates]) -> bool
    ensures none { IsTrue result → (v : ℕ → ℕ) → ¬ FitsAll v edges.now }
    ensures some { result ≡ false → All (λ e. 0 < length e.rows) edges.now }
{
    for edge in edges {
        if edge.len() == 0 {
            return true;
        }
    }
    false
}

/// Whether each of the variables that is wanted is one of the others.
fn has_wanted(others: &[u32], vars: &[u32], wanted: &[u32]) -> bool
    ensures { IsTrue result → (k : ℕ) → has vars.now k ≡ true → has wanted.now k ≡ true → has others.now k ≡ true }
{
    for x in vars {
        if is_in(wanted, *x) && !is_in(others, *x) {
            return false;
        }
    }
    true
}

/// The parent, the j-th, loses the rows without partner in the ear, the i-th. The ear is taken out,
/// where the parent has all variables of it that are wanted; else it is put last. Answers whether it
/// was taken out.
fn take_ear(
    alloc: Global,
    body: &mut Body,
    needed: &[u32],
    i: usize,
    j: usize,
) -> Result<bool, AllocError>
    requires below { (i < length body.old.edges.items) × (j < length body.old.edges.items) }
    requires apart { i ≢ j }
    ensures { IfOk result (λ _. Leaves needed.now body.old.edges.items body.old.checks.items body.new.edges.items body.new.checks.items) }
{
    let ear = body.edges.remove(i);
    let parent = after(i, j);
    let marks = partners(alloc, &body.edges[parent], &ear)?;
    body.edges[parent].keep(&marks);
    let wanted = wanted_by(alloc, body, needed)?;
    if has_wanted(body.edges[parent].vars(), ear.vars(), &wanted) {
        return Ok(true);
    }
    body.edges.push(ear)?;
    Ok(false)
}

/// The position of the number, if it is there.
fn position_of(numbers: &[usize], number: usize) -> Option<usize>
    ensures { IfSome result (λ p. p < length numbers.now) }
{
    for p in 0..numbers.len() {
        if numbers[p] == number {
            return Some(p);
        }
    }
    None
}

/// The positions of the ear and of its parent, if both are there.
fn positions_of(numbers: &[usize], link: Link, count: usize) -> Option<(usize, usize)>
    ensures { IfSome result (λ p. (p.0 < length numbers.now) × (p.0 < count) × (p.1 < count) × (p.0 ≢ p.1)) }
{
    let i = position_of(numbers, link.ear)?;
    let j = position_of(numbers, link.parent)?;
    if i == j || i >= count || j >= count {
        return None;
    }
    Some((i, j))
}

/// The ear's parent loses rows, and the ear is taken out where it can be. Answers whether it was.
fn follow(
    alloc: Global,
    body: &mut Body,
    needed: &[u32],
    numbers: &mut Vec<usize>,
    link: Link,
) -> Result<bool, AllocError>
    ensures { IfOk result (λ _. Leaves needed.now body.old.edges.items body.old.checks.items body.new.edges.items body.new.checks.items) }
{
    let Some((i, j)) = positions_of(numbers, link, body.edges.len()) else {
        return Ok(false);
    };
    let gone = take_ear(alloc, body, needed, i, j)?;
    numbers.remove(i);
    if !gone {
        numbers.push(link.ear)?;
    }
    Ok(gone)
}

/// The ears whose parent is taken out get the parent of that.
fn bequeath(links: &mut [Link], gone: Link) {
    for link in links.iter_mut() {
        if link.parent == gone.ear {
            link.parent = gone.parent;
        }
    }
}

/// Along the order parents lose the rows without partner in their ears, and ears are taken out. It
/// ends at the first that has no rows. The links of what is left are added to those that are there.
fn go_up(
    alloc: Global,
    body: &mut Body,
    needed: &[u32],
    numbers: &mut Vec<usize>,
    links: &mut Vec<Link>,
) -> Result<(), AllocError>
    ensures { IfOk result (λ _. Leaves needed.now body.old.edges.items body.old.checks.items body.new.edges.items body.new.checks.items) }
{
    let order = ear_order(alloc, &body.edges)?;
    for link in &order {
        if has_empty(&body.edges) {
            return Ok(());
        }
        let gone = follow(alloc, body, needed, numbers, *link)?;
        if gone {
            bequeath(links, *link);
        } else {
            links.push(*link)?;
        }
    }
    Ok(())
}

/// On the way back ears lose the rows without partner in their parents.
fn go_down(
    alloc: Global,
    edges: &mut Vec<Candidates>,
    numbers: &[usize],
    links: &[Link],
) -> Result<(), AllocError>
    ensures same { IfOk result (λ _. Same edges.old.items edges.new.items) }
    ensures length { IfOk result (λ _. length edges.new.items ≡ length edges.old.items) }
    ensures vars { IfOk result (λ _. (k : ℕ) → among edges.old.items k ≡ true → among edges.new.items k ≡ true) }
{
    for link in links.iter().rev() {
        if has_empty(edges) {
            return Ok(());
        }
        if let Some((i, j)) = positions_of(numbers, *link, edges.len()) {
            reduce_one(alloc, edges, i, j)?;
        }
    }
    Ok(())
}

/// The candidates without rows that have no partners, and without ears of which nothing more is
/// wanted. Where all are ears, what is left are the rows that take part in some valuation.
pub fn reduce(alloc: Global, body: Body, needed: &[u32]) -> Result<Body, AllocError>
    ensures { IfOk result (λ rest. Leaves needed.now body.edges.items body.checks.items rest.edges.items rest.checks.items) }
{
    let mut body = body;
    let mut numbers = own_labels(alloc, body.edges.len())?;
    let mut links = Vec::new(alloc);
    go_up(alloc, &mut body, needed, &mut numbers, &mut links)?;
    let Body { mut edges, checks } = body;
    go_down(alloc, &mut edges, &numbers, &links)?;
    Ok(Body { edges, checks })
}
