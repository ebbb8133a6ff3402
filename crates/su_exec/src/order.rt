//! Which candidates to join next. No answer depends on it.
ghost use Rattle.std.specs.Prelude.{◌≡◌, ◌≢◌, ◌<◌, length, IfOk, IfSome};

use crate::candidates::Candidates;
use crate::places::is_in;
use std::alloc::{AllocError, Global};
use su_base::{List, NoMemory};
use su_reduce::{Ear, Edge, ears};
use su_tableau::Sym;

/// Whether the variable is in one that is left, other than these two.
fn is_elsewhere(edges: &[Candidates], left: &[bool], i: usize, j: usize, x: u32) -> bool {
    for (k, edge) in edges.iter().enumerate() {
        if k != i && k != j && k < left.len() && left[k] && is_in(edge.vars(), x) {
            return true;
        }
    }
    false
}

/// Whether what the i-th shares with others is in the j-th.
fn is_ear(edges: &[Candidates], left: &[bool], i: usize, j: usize) -> bool
    requires { (i < length edges.now) × (j < length edges.now) }
{
    for x in edges[i].vars() {
        if !is_in(edges[j].vars(), *x) && is_elsewhere(edges, left, i, j, *x) {
            return false;
        }
    }
    true
}

/// Whether the two share a variable.
pub fn shares(a: &Candidates, b: &Candidates) -> bool {
    a.vars().iter().any(|x| is_in(b.vars(), *x))
}

/// An ear and its parent, which share a variable.
pub fn find_ear(edges: &[Candidates], left: &[bool]) -> Option<(usize, usize)>
    ensures { IfSome result (λ p. (p.0 < length edges.now) × (p.1 < length edges.now) × (p.0 ≢ p.1)) }
{
    for i in 0..edges.len() {
        for j in 0..edges.len() {
            if i != j
                && i < left.len()
                && j < left.len()
                && left[i]
                && left[j]
                && shares(&edges[i], &edges[j])
                && is_ear(edges, left, i, j)
            {
                return Some((i, j));
            }
        }
    }
    None
}

/// An ear and its parent, by their numbers.
#[derive(Clone, Copy)]
pub struct Link {
    pub ear: usize,
    pub parent: usize,
}

/// The variables as cells, of no candidates.
fn shape_of(alloc: Global, vars: &[u32]) -> Result<Edge, NoMemory> {
    let mut cells = List::new(alloc);
    for x in vars {
        cells.push(Sym::Var(*x))?;
    }
    Ok(Edge {
        cells,
        candidates: List::new(alloc),
    })
}

/// An ear order of the edges, if there are few and they are acyclic.
fn exact_order(alloc: Global, edges: &[Candidates]) -> Result<Option<List<Ear>>, NoMemory> {
    let mut shapes = List::new(alloc);
    for edge in edges {
        shapes.push(shape_of(alloc, edge.vars())?)?;
    }
    if shapes.len() > 64 {
        return Ok(None);
    }
    ears(alloc, shapes.as_slice())
}

/// Ears and their parents. Where the edges are acyclic, all that share a variable with what is behind
/// them; else as many as are found.
pub fn ear_order(alloc: Global, edges: &[Candidates]) -> Result<Vec<Link>, AllocError> {
    let Ok(found) = exact_order(alloc, edges) else {
        return Err(AllocError);
    };
    let Some(order) = found else {
        return some_ears(alloc, edges);
    };
    let mut links = Vec::new(alloc);
    for ear in order.as_slice() {
        if let Some(parent) = ear.parent {
            links.push(Link {
                ear: ear.edge as usize,
                parent: parent as usize,
            })?;
        }
    }
    Ok(links)
}

/// Ears and their parents, as long as there are any.
fn some_ears(alloc: Global, edges: &[Candidates]) -> Result<Vec<Link>, AllocError> {
    let mut left = vec![in alloc; true; edges.len()]?;
    let mut order = Vec::new(alloc);
    for _ in 0..edges.len() {
        let Some((i, j)) = find_ear(edges, &left) else {
            break;
        };
        if i < left.len() {
            left[i] = false;
        }
        order.push(Link { ear: i, parent: j })?;
    }
    Ok(order)
}

/// The pair to join next: an ear and its parent; else the two with the fewest rows of those that
/// share a variable, or that a check compares, or of all.
pub fn choose(
    alloc: Global,
    edges: &[Candidates],
    compared: &[(u32, u32)],
) -> Result<(usize, usize), AllocError>
    requires { 1 < length edges.now }
    ensures { IfOk result (λ p. (p.0 < p.1) × (p.1 < length edges.now)) }
{
    let left = vec![in alloc; true; edges.len()]?;
    if let Some((i, j)) = find_ear(edges, &left) {
        return Ok(if i < j { (i, j) } else { (j, i) });
    }
    let mut best = (0, 1);
    let mut least = (u8::MAX, u64::MAX);
    for j in 0..edges.len() {
        for i in 0..j {
            let rank = rank(&edges[i], &edges[j], compared);
            let size = (edges[i].len() as u64).saturating_mul(edges[j].len() as u64);
            if (rank, size) < least {
                least = (rank, size);
                best = (i, j);
            }
        }
    }
    Ok(best)
}

/// 0 where the two share a variable, 1 where a check compares one of each, 2 otherwise.
fn rank(a: &Candidates, b: &Candidates, compared: &[(u32, u32)]) -> u8 {
    if shares(a, b) {
        return 0;
    }
    for (x, y) in compared {
        if is_in(a.vars(), *x) && is_in(b.vars(), *y)
            || is_in(a.vars(), *y) && is_in(b.vars(), *x)
        {
            return 1;
        }
    }
    2
}
