use std::alloc::Global;
use std::test::Fail;
use std::thread::Threads;
use su_base::{List, NoMemory};
use su_min::{Cover, Minimal, Reduced, minimise, reduce};
use su_samples::{COURSES, Parts, tableau};
use su_where::Op;

/// A tableau, and its least rows with its fold.
#[derive(Clone, Copy)]
struct Term {
    parts: Parts,
    mask: u64,
    fold: &'static [u8],
}

const ROOMS: Term = Term {
    parts: COURSES,
    mask: 0b110010,
    fold: &[1, 1, 1, 4, 4, 5],
};

/// One row whose first cell is less than its second.
const LESS_ROW: Parts = Parts {
    width: 2,
    rows: &[&[0, 1]],
    head: &[0, 0, 1],
    outputs: 1,
    operators: &[Op::Less],
};

const GREATER_ROW: Parts = Parts {
    operators: &[Op::Greater],
    ..LESS_ROW
};

const LESS: Term = Term {
    parts: LESS_ROW,
    mask: 0b1,
    fold: &[0],
};

const GREATER: Term = Term {
    parts: GREATER_ROW,
    ..LESS
};

/// Terms, those of them that are kept, and for each other one its number, the number of its cover and
/// the rows to which the kept rows of that go.
const UNIONS: &[(&[Term], &[u16], &[(u16, u16, &[u8])])] = &[
    // of equal terms the first is kept
    (
        &[ROOMS, ROOMS, ROOMS],
        &[0],
        &[(1, 0, &[1, 4, 5]), (2, 0, &[1, 4, 5])],
    ),
    // terms with different operators do not cover each other
    (&[LESS, GREATER, LESS], &[0, 1], &[(2, 0, &[0])]),
];

/// Adds the tableau with its least rows and its fold; whether they are as told.
fn push_minimal(alloc: Global, terms: &mut List<Minimal>, term: &Term) -> Result<bool, NoMemory> {
    let Some(t) = tableau(alloc, &term.parts)? else {
        return Ok(false);
    };
    let minimal = minimise(alloc, t)?;
    let is_told = minimal.mask() == term.mask && minimal.fold() == term.fold;
    terms.push(minimal)?;
    Ok(is_told)
}

/// Adds the terms; whether all are as told.
fn push_all(alloc: Global, terms: &mut List<Minimal>, all: &[Term]) -> Result<bool, NoMemory> {
    for term in all {
        if !push_minimal(alloc, terms, term)? {
            return Ok(false);
        }
    }
    Ok(true)
}

/// Whether the covers are these.
fn are_covers(covers: &[Cover], want: &[(u16, u16, &[u8])]) -> bool {
    for (cover, (dropped, by, list)) in covers.iter().zip(want) {
        if cover.dropped != *dropped || cover.by != *by || cover.mapping.list() != *list {
            return false;
        }
    }
    covers.len() == want.len()
}

fn is_reduced(reduced: &Reduced, kept: &[u16], covers: &[(u16, u16, &[u8])]) -> bool {
    reduced.kept.as_slice() == kept && are_covers(reduced.covers.as_slice(), covers)
}

/// Whether the terms are as told, and these are kept with these covers.
fn is_union<R: Threads + Sync>(
    rt: &R,
    alloc: Global,
    all: &[Term],
    kept: &[u16],
    covers: &[(u16, u16, &[u8])],
) -> Result<bool, NoMemory> {
    let mut terms = List::new(alloc);
    let are_told = push_all(alloc, &mut terms, all)?;
    if !are_told || terms.len() > 256 {
        return Ok(false);
    }
    let reduced = reduce(rt, alloc, terms.as_slice())?;
    Ok(is_reduced(&reduced, kept, covers))
}

#[test]
fn of_a_union_the_terms_that_none_covers_are_kept(rt: HostRuntime) -> Result<(), Fail> {
    for (i, (all, kept, covers)) in UNIONS.iter().enumerate() {
        let right = is_union(&rt, rt.alloc(), all, kept, covers)?;
        assert!(rt; right, "union {i}");
    }
    Ok(())
}
