ghost use Rattle.std.specs.Prelude.{◌≡◌, ◌<◌, IsTrue, All, length};
ghost use Rattle.su_classes.specs.Items.{IsPlacedBelow, item_of};

use std::alloc::Global;
use std::test::Fail;
use su_base::{List, NoMemory};
use su_classes::{Placed, Together, close};
use su_fd::Fd;
use su_samples::{Sides, fds_of, is_below, set_of};

fn placed(alloc: Global, has: &[u8], cells: &[usize]) -> Result<Placed, NoMemory> {
    Ok(Placed {
        has: set_of(has),
        cells: List::from_vec(Vec::from_slice(alloc, cells)?),
    })
}

fn are_within(equal: &[Together], items: usize) -> bool
    ensures { IsTrue result → All (λ e. (e.left < items) × (e.right < items)) equal.now }
{
    for e in equal {
        if e.left >= items || e.right >= items {
            return false;
        }
    }
    true
}

fn item_at(row: &Placed, a: u8) -> usize
    requires { a < length row.now.cells }
    ensures { result ≡ item_of row.now a }
{
    *row.cells.get(a as usize)
}

fn is_placed(row: &Placed, items: usize) -> bool
    ensures { IsTrue result → IsPlacedBelow items row.now }
{
    if row.cells.len() > 128 {
        return false;
    }
    let width = row.cells.len() as u8;
    if !is_below(row.has, width) {
        return false;
    }
    for a in 0..width {
        if item_at(row, a) >= items {
            return false;
        }
    }
    true
}

fn are_placed(rows: &[Placed], items: usize) -> bool
    ensures { IsTrue result → All (IsPlacedBelow items) rows.now }
{
    for row in rows {
        if !is_placed(row, items) {
            return false;
        }
    }
    true
}

/// The table of the least classes, if the rows and the pairs have items below the bound.
fn closed(
    alloc: Global,
    equal: &[Together],
    fds: &[Fd],
    rows: &[Placed],
    items: usize,
) -> Result<Option<Vec<usize>>, NoMemory> {
    if !are_within(equal, items) {
        return Ok(None);
    }
    if !are_placed(rows, items) {
        return Ok(None);
    }
    let mut table = Vec::from_elem(alloc, 7, items)?;
    close(alloc, &mut table, equal, fds, rows)?;
    Ok(Some(table))
}

/// A row: its attributes and its cells.
type Cells = (&'static [u8], &'static [usize]);

struct Case {
    rows: &'static [Cells],
    equal: &'static [(usize, usize)],
    fds: &'static [Sides],
    classes: &'static [usize],
}

/// Items that are in one class have its least item.
const CASES: [Case; 6] = [
    // without dependencies only what is equal is together
    Case {
        rows: &[(&[0, 1], &[0, 1]), (&[0, 1], &[0, 2])],
        equal: &[(3, 4), (4, 2)],
        fds: &[],
        classes: &[0, 1, 2, 2, 2],
    },
    // the rows agree on attribute 0
    Case {
        rows: &[(&[0, 1], &[0, 1]), (&[0, 1], &[0, 2])],
        equal: &[],
        fds: &[(&[0], &[1])],
        classes: &[0, 1, 1],
    },
    // they don't agree on both attributes
    Case {
        rows: &[(&[0, 1, 2], &[0, 1, 2]), (&[0, 1, 2], &[0, 3, 4])],
        equal: &[],
        fds: &[(&[0, 1], &[2])],
        classes: &[0, 1, 2, 3, 4],
    },
    // each dependency frees the one before it
    Case {
        rows: &[
            (&[0, 1, 2, 3], &[0, 1, 2, 3]),
            (&[0, 1, 2, 3], &[0, 4, 5, 6]),
        ],
        equal: &[],
        fds: &[(&[2], &[3]), (&[1], &[2]), (&[0], &[1])],
        classes: &[0, 1, 2, 3, 1, 2, 3],
    },
    // a row without the right side is not bound
    Case {
        rows: &[(&[0, 1], &[0, 1]), (&[0], &[0, 2]), (&[0, 1], &[0, 3])],
        equal: &[],
        fds: &[(&[0], &[1])],
        classes: &[0, 1, 2, 1],
    },
    // a merge on the right makes rows agree on the left
    Case {
        rows: &[
            (&[0, 1], &[0, 3]),
            (&[0, 1], &[0, 2]),
            (&[0, 1], &[3, 4]),
            (&[0, 1], &[2, 1]),
        ],
        equal: &[],
        fds: &[(&[0], &[1])],
        classes: &[0, 1, 2, 2, 1],
    },
];

fn rows_of(alloc: Global, case: &Case) -> Result<List<Placed>, NoMemory> {
    let mut rows = List::new(alloc);
    for (has, cells) in case.rows {
        rows.push(placed(alloc, has, cells)?)?;
    }
    Ok(rows)
}

fn equal_of(alloc: Global, case: &Case) -> Result<List<Together>, NoMemory> {
    let mut equal = List::new(alloc);
    for (left, right) in case.equal {
        equal.push(Together {
            left: *left,
            right: *right,
        })?;
    }
    Ok(equal)
}

#[test]
fn the_classes_are_the_least(rt: HostRuntime) -> Result<(), Fail> {
    let alloc = rt.alloc();
    for case in &CASES {
        let rows = rows_of(alloc, case)?;
        let equal = equal_of(alloc, case)?;
        let fds = fds_of(alloc, case.fds)?;
        let items = case.classes.len();
        let table = closed(
            alloc,
            equal.as_slice(),
            fds.as_slice(),
            rows.as_slice(),
            items,
        )?;
        assert_eq!(rt;
            table.expect(&rt, "items below the bound").as_slice(),
            case.classes
        );
    }
    Ok(())
}
