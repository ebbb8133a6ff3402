use std::alloc::Global;
use std::test::Fail;
use su_base::{AttrSet, List, NoMemory, ObjSet, Row, Value, compare_rows, copy_row, is_name};

/// A value of a row.
#[derive(Clone, Copy)]
enum Cell {
    I(i64),
    T(&'static str),
}

use Cell::{I, T};

/// Each row stands before the next: value by value, numbers before texts.
const ASCENDING: &[&[Cell]] = &[
    &[],
    &[I(-9223372036854775808)],
    &[I(7), T("a")],
    &[I(7), T("b")],
    &[I(8), T("")],
    &[I(9223372036854775807)],
    &[T("")],
    // a text of at most 14 bytes lies in the value, a longer one on the heap
    &[T("Main Street 7")],
    &[T("Main Street 77")],
    &[T("Main Street 77a")],
    &[T("Main Street 77é")],
    // places on the heap hold 55 or 119 bytes, and strings what is longer
    &[T("aaaaaaaaaaaaaaaaaaaaaaaaaaaaaaaaaaaaaaaaaaaaaaaaaaaaaaa")],
    &[T("aaaaaaaaaaaaaaaaaaaaaaaaaaaaaaaaaaaaaaaaaaaaaaaaaaaaaaaa")],
    &[T(
        "aaaaaaaaaaaaaaaaaaaaaaaaaaaaaaaaaaaaaaaaaaaaaaaaaaaaaaaaaaaaaaaaaaaaaaaaaaaaaaaaaaaaaaaaaaaaaaaaaaaaaaaaaaaaaaaaaaaaaaa",
    )],
    &[T(
        "aaaaaaaaaaaaaaaaaaaaaaaaaaaaaaaaaaaaaaaaaaaaaaaaaaaaaaaaaaaaaaaaaaaaaaaaaaaaaaaaaaaaaaaaaaaaaaaaaaaaaaaaaaaaaaaaaaaaaaaa",
    )],
];

fn row_of(alloc: Global, cells: &[Cell]) -> Result<Row, NoMemory> {
    let mut row = List::new(alloc);
    for cell in cells {
        match cell {
            I(number) => row.push(Value::Int(*number))?,
            T(text) => row.push_text(alloc, text)?,
        }
    }
    Ok(row)
}

fn rows_of(alloc: Global) -> Result<List<Row>, NoMemory> {
    let mut rows = List::new(alloc);
    for cells in ASCENDING {
        rows.push(row_of(alloc, cells)?)?;
    }
    Ok(rows)
}

fn copies_of(alloc: Global, rows: &[Row]) -> Result<List<Row>, NoMemory> {
    let mut copies = List::new(alloc);
    for row in rows {
        copies.push(copy_row(alloc, row)?)?;
    }
    Ok(copies)
}

fn is_cell(value: &Value, cell: Cell) -> bool {
    match (value, cell) {
        (Value::Int(number), I(want)) => *number == want,
        (Value::Text(text), T(want)) => text.as_str() == want,
        _ => false,
    }
}

/// Whether the rows have the values of the table.
fn are_made(rows: &[Row]) -> bool {
    for (row, cells) in rows.iter().zip(ASCENDING) {
        if row.len() != cells.len() {
            return false;
        }
        for (value, cell) in row.as_slice().iter().zip(*cells) {
            if !is_cell(value, *cell) {
                return false;
            }
        }
    }
    true
}

/// Whether each row is equal to its copy, behind the copies before it, and before those behind it.
fn are_ascending(rows: &[Row], copies: &[Row]) -> bool {
    for (i, row) in rows.iter().enumerate() {
        for (j, copy) in copies.iter().enumerate() {
            if compare_rows(row, copy) != i.cmp(&j) {
                return false;
            }
        }
    }
    true
}

#[test]
fn rows_are_ordered_value_by_value(rt: HostRuntime) -> Result<(), Fail> {
    let rows = rows_of(rt.alloc())?;
    let copies = copies_of(rt.alloc(), rows.as_slice())?;
    let made = are_made(copies.as_slice());
    let ascending = are_ascending(rows.as_slice(), copies.as_slice());
    assert_eq!(rt;
        (rows.len(), made, ascending),
        (ASCENDING.len(), true, true)
    );
    Ok(())
}

const NAMES: &[(&str, bool)] = &[
    ("A", true),
    ("_", true),
    ("a1_", true),
    ("Where", true),
    ("where", false),
    ("window", false),
    ("", false),
    ("1a", false),
    ("a-b", false),
    ("a.b", false),
    (
        "aaaaaaaaaaaaaaaaaaaaaaaaaaaaaaaaaaaaaaaaaaaaaaaaaaaaaaaaaaaaaaaa",
        true,
    ),
    (
        "aaaaaaaaaaaaaaaaaaaaaaaaaaaaaaaaaaaaaaaaaaaaaaaaaaaaaaaaaaaaaaaaa",
        false,
    ),
];

#[test]
fn names_are_words_that_are_not_reserved(rt: HostRuntime) -> Result<(), Fail> {
    for (text, want) in NAMES {
        assert!(rt; is_name(text) == *want, "{text}");
    }
    Ok(())
}

fn attributes_are_held() -> bool {
    let low = AttrSet::empty().insert(0).insert(127);
    let high = AttrSet::empty().insert(127);
    let held = low.contains(0) && low.contains(127) && !low.contains(1) && !low.contains(200);
    let within = high.within(low) && !low.within(high) && low.meet(high).within(high);
    held && within && low.minus(high).minus(AttrSet::empty().insert(0)).is_empty()
}

fn objects_are_held() -> bool {
    let objects = ObjSet::empty().insert(63).union(ObjSet::empty().insert(2));
    let held = objects.contains(63) && objects.contains(2) && !objects.contains(3);
    held && objects.minus(objects).is_empty() && objects.meet(objects).within(objects)
}

#[test]
fn sets_hold_what_was_put_in(rt: HostRuntime) -> Result<(), Fail> {
    assert!(rt; attributes_are_held());
    assert!(rt; objects_are_held());
    Ok(())
}

fn listed(alloc: Global) -> Result<List<u8>, NoMemory> {
    let mut list = List::new(alloc);
    list.push(3)?;
    list.push(4)?;
    Ok(list)
}

#[test]
fn a_list_gives_back_what_was_pushed(rt: HostRuntime) -> Result<(), Fail> {
    let mut list = listed(rt.alloc())?;
    let last = list.pop();
    let rest = List::from_vec(list.into_vec());
    assert_eq!(rt; (last, rest.as_slice()), (Some(4), [3].as_slice()));
    Ok(())
}
