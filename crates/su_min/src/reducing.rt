//! Which terms of a union are kept.
ghost use Rattle.std.specs.Prelude.{◌≡◌, ◌<◌, ◌≤◌, ◌↔◌, IsTrue, IfOk, length};
ghost use Rattle.su_min.specs.Reduction.{term_at, IsFirstMapping, IsReduced};
ghost use Rattle.su_min.specs.Cover.{Covers};
ghost use Rattle.su_min.specs.Needed.{NoneIsSpare};
ghost use Rattle.su_min.specs.inside.Matrix.{entry, IsSquare, IsDroppedIn, IsPreorder, IsFirstCover, AreMarks};
ghost use Rattle.su_min.specs.inside.Rooms.{IsRoomOf};

use crate::matrix::coverings;
use crate::minimal::Minimal;
use crate::reduced::{Cover, Reduced};
use crate::searches::first_mapping;
use std::alloc::Global;
use std::marker::Brand;
use std::sync::ledger::{Blank, Ledger};
use std::thread::Threads;
use su_base::{List, NoMemory, Steps};
use su_map::Room;

/// Whether term j covers term i.
fn has_entry(matrix: &[List<bool>], j: usize, i: usize) -> bool
    requires square { IsSquare matrix.now }
    requires row { j < length matrix.now }
    requires column { i < length matrix.now }
    ensures { result ≡ entry matrix.now j i }
{
    *matrix[j].get(i)
}

/// Whether some term covers term i that it does not cover, or some earlier term covers it.
fn is_dropped(matrix: &[List<bool>], i: usize) -> bool
    requires square { IsSquare matrix.now }
    requires term { i < length matrix.now }
    ensures { IsTrue result ↔ IsDroppedIn (entry matrix.now) (length matrix.now) i }
{
    for j in 0..matrix.len() {
        if has_entry(matrix, j, i) && (j < i || !has_entry(matrix, i, j)) {
            return true;
        }
    }
    false
}

/// For each term whether it is dropped.
fn dropped_terms(alloc: Global, matrix: &[List<bool>]) -> Result<List<bool>, NoMemory>
    requires square { IsSquare matrix.now }
    ensures { IfOk result (AreMarks (IsDroppedIn (entry matrix.now) (length matrix.now)) (length matrix.now)) }
{
    let mut dropped = List::from_vec(Vec::with_capacity(alloc, matrix.len())?);
    for i in 0..matrix.len() {
        dropped.push(is_dropped(matrix, i))?;
    }
    Ok(dropped)
}

/// The first kept term that covers term i.
fn first_cover(matrix: &[List<bool>], dropped: &[bool], i: usize) -> usize
    requires square { IsSquare matrix.now }
    requires preorder { IsPreorder (entry matrix.now) (length matrix.now) }
    requires dropped { AreMarks (IsDroppedIn (entry matrix.now) (length matrix.now)) (length matrix.now) dropped.now }
    requires term { i < length matrix.now }
    ensures { IsFirstCover (entry matrix.now) (length matrix.now) i result }
{
    for k in 0..matrix.len() {
        if has_entry(matrix, k, i) && !dropped[k] {
            return k;
        }
    }
    unreachable!()
}

/// The cover of a term by another one.
fn cover_of<L: Ledger>(
    alloc: Global,
    terms: &[Minimal],
    i: usize,
    k: usize,
    room: &mut Option<Room>,
    steps: &mut Steps<L>,
) -> Result<Cover, NoMemory>
    requires few { length terms.now ≤ 256 }
    requires dropped { i < length terms.now }
    requires by { k < length terms.now }
    requires covers { Covers (term_at terms.now k) (term_at terms.now i) }
    requires room { IsRoomOf terms.now room.old }
    ensures dropped { IfOk result (λ c. c.dropped ≡ i) }
    ensures by { IfOk result (λ c. c.by ≡ k) }
    ensures mapping { IfOk result (λ c. IsFirstMapping (term_at terms.now k) (term_at terms.now i) c.mapping) }
    ensures room { IsRoomOf terms.now room.new }
{
    Ok(Cover {
        dropped: i as u16,
        by: k as u16,
        mapping: first_mapping(alloc, terms, &terms[k], &terms[i], room, steps)?,
    })
}

/// Which terms are kept, and by which of these each dropped one is covered, by searches whose steps are
/// counted in a ledger.
fn reduce_counted<R: Threads + Sync, L: Ledger>(
    rt: &R,
    alloc: Global,
    terms: &[Minimal],
    blank: Blank,
) -> Result<Reduced, NoMemory>
    requires few { length terms.now ≤ 256 }
    requires name { blank.name ≡ L.name }
    requires parts { blank.parts ≡ L.parts }
    requires some { 0 < blank.parts }
    ensures reduced { IfOk result (IsReduced terms.now) }
    ensures needed { IfOk result (λ r. NoneIsSpare terms.now r.kept) }
{
    let mut room = None;
    let mut steps = Steps::<L>::new(blank);
    let matrix = coverings(rt, alloc, terms, &mut room, &mut steps)?;
    let matrix = matrix.as_slice();
    let dropped = dropped_terms(alloc, matrix)?;
    let dropped = dropped.as_slice();
    let mut kept = List::new(alloc);
    let mut covers = List::new(alloc);
    for i in 0..terms.len() {
        if dropped[i] {
            let by = first_cover(matrix, dropped, i);
            covers.push(cover_of(alloc, terms, i, by, &mut room, &mut steps)?)?;
        } else {
            kept.push(i as u16)?;
        }
    }
    Ok(Reduced { kept, covers })
}

/// Which terms are kept, and by which of these each dropped one is covered. Alike terms are compared
/// in up to two pieces for each processor, but for pairs that the first term or constants in their
/// heads tell; those of a few rows together in the caller's thread. Each cover holds copies of two
/// tableaux.
pub fn reduce<R: Threads + Sync>(
    rt: &R,
    alloc: Global,
    terms: &[Minimal],
) -> Result<Reduced, NoMemory>
    requires { length terms.now ≤ 256 }
    ensures reduced { IfOk result (IsReduced terms.now) }
    ensures needed { IfOk result (λ r. NoneIsSpare terms.now r.kept) }
{
    reduce_counted::<R, Brand>(rt, alloc, terms, Blank::new(1))
}
