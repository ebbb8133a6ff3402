ghost use Rattle.std.specs.Prelude.{◌≡◌, IsTrue, All, length};
ghost use Rattle.su_chase.specs.Chased.{IsFdBelow};

use std::alloc::Global;
use std::test::Fail;
use su_base::{List, NoMemory, Value};
use su_chase::{Closed, close};
use su_fd::Fd;
use su_samples::{Sides, fds_of, is_below};
use su_tableau::Sym;

/// A symbol of a table.
#[derive(Clone, Copy)]
enum Cell {
    V(u32),
    I(i64),
}

use Cell::{I, V};

fn symbol(cell: Cell) -> Sym {
    match cell {
        V(k) => Sym::Var(k),
        I(n) => Sym::Const(Value::Int(n)),
    }
}

fn row_of(alloc: Global, cells: &[Cell]) -> Result<List<Sym>, NoMemory> {
    let mut row = List::new(alloc);
    for cell in cells {
        row.push(symbol(*cell))?;
    }
    Ok(row)
}

fn rows_of(alloc: Global, cells: &[&[Cell]]) -> Result<List<List<Sym>>, NoMemory> {
    let mut rows = List::new(alloc);
    for row in cells {
        rows.push(row_of(alloc, row)?)?;
    }
    Ok(rows)
}

fn are_sides_below(fd: &Fd, width: u8) -> bool
    ensures { IsTrue result → IsFdBelow width fd.now }
{
    if !is_below(fd.left, width) {
        return false;
    }
    if !is_below(fd.right, width) {
        return false;
    }
    true
}

fn are_below(fds: &[Fd], width: u8) -> bool
    ensures { IsTrue result → All (IsFdBelow width) fds.now }
{
    for fd in fds {
        if !are_sides_below(fd, width) {
            return false;
        }
    }
    true
}

fn are_wide(rows: &[List<Sym>], width: u8) -> bool
    ensures { IsTrue result → All (λ row. length row ≡ width) rows.now }
{
    for row in rows {
        if row.len() != width as usize {
            return false;
        }
    }
    true
}

/// The classes, if the rows are of this width, and the dependencies below it.
fn closed(
    alloc: Global,
    fds: &[Fd],
    rows: &[List<Sym>],
    width: u8,
) -> Result<Option<Closed>, NoMemory> {
    if width > 128 {
        return Ok(None);
    }
    if rows.len() > 20000 {
        return Ok(None);
    }
    if !are_wide(rows, width) {
        return Ok(None);
    }
    if !are_below(fds, width) {
        return Ok(None);
    }
    Ok(Some(close(alloc, fds, rows)?))
}

struct Case {
    width: u8,
    rows: &'static [&'static [Cell]],
    fds: &'static [Sides],
    names: &'static [Cell],
    clash: Option<(i64, i64)>,
}

/// The name of each variable, and the constants that clash.
const CASES: &[Case] = &[
    // nothing is asked
    Case {
        width: 2,
        rows: &[&[V(0), V(1)], &[V(0), V(2)]],
        fds: &[],
        names: &[V(0), V(1), V(2)],
        clash: None,
    },
    // the least variable names a class
    Case {
        width: 2,
        rows: &[&[V(0), V(2)], &[V(0), V(1)]],
        fds: &[(&[0], &[1])],
        names: &[V(0), V(1), V(1)],
        clash: None,
    },
    // a constant names its class
    Case {
        width: 2,
        rows: &[&[V(0), V(1)], &[V(0), I(5)]],
        fds: &[(&[0], &[1])],
        names: &[V(0), I(5)],
        clash: None,
    },
    // each dependency frees the one before it
    Case {
        width: 4,
        rows: &[&[I(1), V(0), V(1), V(2)], &[I(1), V(3), V(4), I(7)]],
        fds: &[(&[2], &[3]), (&[1], &[2]), (&[0], &[1])],
        names: &[V(0), V(1), I(7), V(0), V(1)],
        clash: None,
    },
    // two ways to a value are inconsistent
    Case {
        width: 3,
        rows: &[
            &[I(1), I(2), V(0)],
            &[V(1), I(2), I(3)],
            &[I(1), V(2), I(4)],
        ],
        fds: &[(&[0], &[1]), (&[1], &[2])],
        names: &[I(3), V(1), I(2)],
        clash: Some((3, 4)),
    },
    // of three constants in one class the two least are told, and not those of a later class
    Case {
        width: 2,
        rows: &[
            &[I(1), I(9)],
            &[I(1), I(8)],
            &[I(1), I(7)],
            &[I(2), I(5)],
            &[I(2), I(20)],
        ],
        fds: &[(&[0], &[1])],
        names: &[],
        clash: Some((5, 20)),
    },
    // a left side of two attributes: one is not enough
    Case {
        width: 3,
        rows: &[
            &[V(0), V(1), V(2)],
            &[V(0), V(3), V(4)],
            &[V(0), V(1), V(5)],
        ],
        fds: &[(&[0, 1], &[2])],
        names: &[V(0), V(1), V(2), V(3), V(4), V(2)],
        clash: None,
    },
];

fn same(a: &[Sym], b: &[Sym]) -> bool {
    if a.len() != b.len() {
        return false;
    }
    for (i, x) in a.iter().enumerate() {
        if !x.same(&b[i]) {
            return false;
        }
    }
    true
}

fn clashes(found: &Option<(Value, Value)>, wanted: Option<(i64, i64)>) -> bool {
    match (found, wanted) {
        (Some((less, greater)), Some((a, b))) => {
            *less == Value::Int(a) && *greater == Value::Int(b)
        }
        (None, None) => true,
        _ => false,
    }
}

/// Whether the symbols are these.
fn are_symbols(alloc: Global, symbols: &[Sym], cells: &[Cell]) -> Result<bool, NoMemory> {
    let wanted = row_of(alloc, cells)?;
    Ok(same(symbols, wanted.as_slice()))
}

/// Whether the classes have the names of the case, and its clash.
fn is_closed_as(alloc: Global, found: &Closed, case: &Case) -> Result<bool, NoMemory> {
    if !clashes(&found.clash, case.clash) {
        return Ok(false);
    }
    are_symbols(alloc, found.names.as_slice(), case.names)
}

fn closes(alloc: Global, case: &Case) -> Result<bool, NoMemory> {
    let rows = rows_of(alloc, case.rows)?;
    let fds = fds_of(alloc, case.fds)?;
    match closed(alloc, fds.as_slice(), rows.as_slice(), case.width)? {
        Some(found) => is_closed_as(alloc, &found, case),
        None => Ok(false),
    }
}

#[test]
fn classes_have_their_first_symbols_for_names(rt: HostRuntime) -> Result<(), Fail> {
    for (i, case) in CASES.iter().enumerate() {
        let right = closes(rt.alloc(), case)?;
        assert!(rt; right, "case {i}");
    }
    Ok(())
}
