use std::alloc::Global;
use std::test::Fail;
use su_base::{AttrSet, List, NoMemory, Row, Value};
use su_samples::{COURSES, JONES, Parts, set_of, tableau};
use su_tableau::{Tableau, all_essential, essential, has, holds};

const KEPT: u64 = 0b110010;

/// The kept rows, each with its essential columns.
const ESSENTIAL: &[(usize, &[u8])] = &[(1, &[0, 3]), (4, &[0, 3]), (5, &[0, 4])];

fn is_set(set: AttrSet, members: &[u8]) -> bool {
    set.within(set_of(members)) && set_of(members).within(set)
}

/// Whether the kept rows have their essential columns, asked for one by one and all at once.
fn are_essential(t: &Tableau, all: &[AttrSet]) -> bool {
    for (row, columns) in ESSENTIAL {
        if *row >= t.row_count() || *row >= all.len() || !has(KEPT, *row) {
            return false;
        }
        if !is_set(essential(t, KEPT, *row), columns) || !is_set(all[*row], columns) {
            return false;
        }
    }
    true
}

/// Whether it has six columns, 46 symbols, one output and no comparison.
fn has_its_parts(t: &Tableau) -> bool {
    t.width() == 6
        && t.symbols() == 46
        && t.head().len() == 1
        && t.outputs() == 1
        && t.operators().is_empty()
}

/// Whether a copy of the tableau has its parts and these essential columns.
fn copy_is_essential(alloc: Global, t: &Tableau) -> Result<bool, NoMemory> {
    let t = t.copy(alloc)?;
    let all = all_essential(alloc, &t, KEPT)?;
    Ok(has_its_parts(&t) && are_essential(&t, all.as_slice()))
}

/// Whether a copy of the tableau of the courses has them.
fn courses_are_essential(alloc: Global) -> Result<bool, NoMemory> {
    match tableau(alloc, &COURSES)? {
        Some(t) => copy_is_essential(alloc, &t),
        None => Ok(false),
    }
}

#[test]
fn constants_head_symbols_and_shared_ones_are_essential(rt: HostRuntime) -> Result<(), Fail> {
    let right = courses_are_essential(rt.alloc())?;
    assert!(rt; right);
    Ok(())
}

/// Width, head and outputs of one row, and whether they fit.
const FIT: &[(u8, &[u32], u16, bool)] = &[
    (2, &[1], 1, true),
    (2, &[JONES], 1, true),
    (2, &[2], 1, false),
    (3, &[1], 1, false),
    (2, &[1], 2, false),
    (2, &[1], 0, false),
];

#[test]
fn parts_that_do_not_fit_make_no_tableau(rt: HostRuntime) -> Result<(), Fail> {
    for (k, (width, head, outputs, want)) in FIT.iter().enumerate() {
        let parts = Parts {
            width: *width,
            rows: &[&[0, 1]],
            head: *head,
            outputs: *outputs,
            operators: &[],
        };
        let made = tableau(rt.alloc(), &parts)?.is_some();
        assert!(rt; made == *want, "parts {k}");
    }
    Ok(())
}

/// Two rows, of which each is the other turned round.
const TURNED: Parts = Parts {
    width: 2,
    rows: &[&[0, 1], &[1, 0]],
    head: &[0],
    outputs: 1,
    operators: &[],
};

const UNIVERSE: &[&[i64]] = &[&[1, 2], &[2, 1], &[2, 3]];

/// The values of the two variables, and whether they send the rows to rows of the universe.
const VALUATIONS: &[(&[i64], bool)] = &[(&[1, 2], true), (&[2, 1], true), (&[2, 3], false)];

fn numbers(alloc: Global, values: &[i64]) -> Result<Row, NoMemory> {
    let mut row = List::new(alloc);
    for value in values {
        row.push(Value::Int(*value))?;
    }
    Ok(row)
}

fn universe(alloc: Global) -> Result<List<Row>, NoMemory> {
    let mut rows = List::new(alloc);
    for values in UNIVERSE {
        rows.push(numbers(alloc, values)?)?;
    }
    Ok(rows)
}

fn sends_rows_to_rows(t: &Tableau, universe: &[Row], values: &Row) -> bool {
    if t.symbols() > values.len() {
        return false;
    }
    holds(t, universe, values)
}

/// The number of the first valuation that is told otherwise, or how many there are.
fn first_otherwise(alloc: Global, t: &Tableau, universe: &[Row]) -> Result<usize, NoMemory> {
    for (k, (values, want)) in VALUATIONS.iter().enumerate() {
        let values = numbers(alloc, values)?;
        if sends_rows_to_rows(t, universe, &values) != *want {
            return Ok(k);
        }
    }
    Ok(VALUATIONS.len())
}

/// The same over the universe of the table.
fn first_in_universe(alloc: Global, t: &Tableau) -> Result<usize, NoMemory> {
    let universe = universe(alloc)?;
    first_otherwise(alloc, t, universe.as_slice())
}

/// The same of the two rows; 0 also where they make no tableau.
fn first_of_turned(alloc: Global) -> Result<usize, NoMemory> {
    match tableau(alloc, &TURNED)? {
        Some(t) => first_in_universe(alloc, &t),
        None => Ok(0),
    }
}

#[test]
fn a_valuation_sends_rows_to_rows(rt: HostRuntime) -> Result<(), Fail> {
    let reached = first_of_turned(rt.alloc())?;
    assert_eq!(rt; reached, VALUATIONS.len());
    Ok(())
}
