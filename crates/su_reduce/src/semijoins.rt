//! A semijoin: an edge loses the candidates that have no partner in another.
ghost use Rattle.std.specs.Prelude.{◌≡◌, ◌↔◌, ◌<◌, ◌+◌, IfOk, OnOk, length};
ghost use Rattle.su_reduce.specs.inside.Coded.{AreCoded, AreSheets};
ghost use Rattle.su_reduce.specs.inside.Keys.{AreShared};
ghost use Rattle.su_reduce.specs.inside.Marks.{AreMarks, IsSemijoin, MarkedFit, AreLeftBeside};

use crate::edges::Edge;
use crate::partners::{Side, partner_marks};
use crate::shapes::place;
use crate::sheets::Sheet;
use std::alloc::Global;
use su_base::{List, NoMemory};
use su_tableau::Sym;

/// The places of the variables that two edges share, on both sides.
#[derive(Drop)]
struct Places {
    left: List<usize>,
    right: List<usize>,
}

/// Adds place p with that of its variable on the right, if there is one.
fn add_shared(places: &mut Places, left: &[Sym], right: &[Sym], p: usize) -> Result<(), NoMemory>
    requires below { p < length left.now }
    requires so_far { AreShared left.now right.now p places.old.left places.old.right }
    ensures { OnOk result (AreShared left.now right.now (p + 1) places.new.left places.new.right) }
{
    if let Sym::Var(k) = &left[p] {
        let q = place(right, *k);
        if q < right.len() {
            places.left.push(p)?;
            places.right.push(q)?;
        }
    }
    Ok(())
}

/// For each variable that stands on both sides a place on either.
fn shared(alloc: Global, left: &[Sym], right: &[Sym]) -> Result<Places, NoMemory>
    ensures { IfOk result (λ places. AreShared left.now right.now (length left.now) places.left places.right) }
{
    let mut places = Places {
        left: List::new(alloc),
        right: List::new(alloc),
    };
    for p in 0..left.len() {
        add_shared(&mut places, left, right, p)?;
    }
    Ok(places)
}

/// An edge, its candidates as rows of codes, and which of them are marked.
#[derive(Clone, Copy)]
struct Coded<'a> {
    edge: &'a Edge,
    sheet: &'a Sheet,
    marks: &'a [bool],
}

/// The marks of the first edge without those of candidates that have no partner in the second.
fn partnered(alloc: Global, left: &Coded, right: &Coded) -> Result<List<bool>, NoMemory>
    requires coded { AreCoded left.now.edge.now left.now.sheet.now right.now.edge.now right.now.sheet.now }
    requires lengths { (length left.now.marks.now ≡ length left.now.edge.now.candidates) × (length right.now.marks.now ≡ length right.now.edge.now.candidates) }
    requires left { MarkedFit left.now.edge.now left.now.marks.now }
    requires right { MarkedFit right.now.edge.now right.now.marks.now }
    ensures length { IfOk result (λ kept. length kept ≡ length left.now.edge.now.candidates) }
    ensures exact { IfOk result (AreLeftBeside left.now.edge.now left.now.marks.now right.now.edge.now right.now.marks.now) }
{
    let places = shared(
        alloc,
        left.edge.cells.as_slice(),
        right.edge.cells.as_slice(),
    )?;
    let kept = partner_marks(
        alloc,
        &Side {
            rows: left.sheet,
            marks: left.marks,
            key: places.left.as_slice(),
        },
        &Side {
            rows: right.sheet,
            marks: right.marks,
            key: places.right.as_slice(),
        },
    )?;
    Ok(List::from_vec(kept))
}

/// Edge a loses the candidates that have no partner in edge b.
pub fn semijoin(
    alloc: Global,
    edges: &[Edge],
    sheets: &[Sheet],
    marks: &mut [List<bool>],
    a: usize,
    b: usize,
) -> Result<(), NoMemory>
    requires below { (a < length edges.now) × (b < length edges.now) }
    requires sheets { AreSheets edges.now sheets.now }
    requires marks { AreMarks edges.now marks.old }
    ensures { OnOk result (IsSemijoin edges.now a b marks.old marks.new) }
{
    let left = Coded {
        edge: &edges[a],
        sheet: &sheets[a],
        marks: marks[a].as_slice(),
    };
    let right = Coded {
        edge: &edges[b],
        sheet: &sheets[b],
        marks: marks[b].as_slice(),
    };
    let kept = partnered(alloc, &left, &right)?;
    marks[a] = kept;
    Ok(())
}
