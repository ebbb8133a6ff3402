ghost use Rattle.std.specs.Prelude.{IsTrue};
ghost use Rattle.sqlite_trees.specs.Tree.{IsIndexShape};

use sqlite_trees::memory::MemStore;
use sqlite_trees::schema::Object;
use sqlite_trees::store::{Shape, Store};
use sqlite_value::keys::Order;
use sqlite_value::row::Row as Entry;
use sqlite_value::value::ValueRef;
use std::alloc::{AllocError, Global};
use std::test::Fail;
use su_base::{List, NoMemory, Row};
use su_cases::{rows_of, told};
use su_entries::{ReadFault, fill_entry, put_in, read_rows, row_of, take_out};

/// A store in memory whose tree 0 is an empty set of entries in SQLite's own order.
fn store_of_a_set(alloc: Global) -> Result<MemStore, AllocError> {
    let object = Object {
        shape: Shape::Index(Order::PLAIN),
        kind: "table",
        name: "R",
        table: "R",
        reals: 0,
        sql: Some("CREATE TABLE R (A, B, PRIMARY KEY (A, B)) WITHOUT ROWID"),
    };
    MemStore::new(alloc, &[object])
}

/// Whether tree 0 is a set of entries.
fn is_set<S: Store>(store: &S) -> bool
    ensures { IsTrue result → IsIndexShape ((S.Store.view store.now).shape 0) }
{
    matches!(store.shape(0), Shape::Index(_))
}

/// The rows, which have a `;` between them; none of an empty text.
fn rows_or_none(alloc: Global, lines: &str) -> Result<List<Row>, NoMemory> {
    if lines.is_empty() {
        return Ok(List::new(alloc));
    }
    rows_of(alloc, lines)
}

/// Puts the rows into tree 0, or takes them out: whether the store did so.
fn is_changed<S: Store>(
    alloc: Global,
    store: &mut S,
    lines: &str,
    is_in: bool,
) -> Result<bool, NoMemory> {
    let rows = rows_or_none(alloc, lines)?;
    if !is_set(store) {
        return Ok(false);
    }
    let mut entry = Entry::new(alloc);
    let done = if is_in {
        put_in(store, 0, rows.as_slice(), &mut entry)
    } else {
        take_out(store, 0, rows.as_slice(), &mut entry)
    };
    Ok(done.is_ok())
}

/// What tree 0 is read as, at most so many rows: the rows as a text, or the fault.
fn read_as<S: Store>(
    alloc: Global,
    store: &mut S,
    most: u64,
) -> Result<Result<String, ReadFault>, AllocError> {
    if !is_set(store) {
        return Ok(Err(ReadFault::TooMany));
    }
    match read_rows(alloc, store, 0, most) {
        Ok(rows) => Ok(Ok(told(alloc, rows.as_slice())?)),
        Err(fault) => Ok(Err(fault)),
    }
}

/// Rows that a set has, rows that are put in and rows that are taken out then, and what is there in the end.
const SETS: &[(&str, &str, &str, &str)] = &[
    ("5;4", "4;6;6", "9;5", "4 /6 /"),
    ("", "x", "x", ""),
    ("", "", "1", ""),
    ("7;7", "7", "", "7 /"),
    ("7;7", "", "7;7", ""),
    ("b;10;a;9;-1", "", "", "-1 /9 /10 /a /b /"),
    ("z;é;Z;aa;a", "", "", "Z /a /aa /z /é /"),
    ("1 b;0 z;1 a", "1 a;x 1", "1 b;b 1", "0 z /1 a /x 1 /"),
    (
        "9223372036854775807;0;-9223372036854775808",
        "9223372036854775806",
        "",
        "-9223372036854775808 /0 /9223372036854775806 /9223372036854775807 /",
    ),
];

/// Whether the set has these rows in the end, in this order.
fn is_left<S: Store>(
    alloc: Global,
    store: &mut S,
    case: &(&str, &str, &str, &str),
) -> Result<bool, NoMemory> {
    let is_done = is_changed(alloc, store, case.0, true)?
        && is_changed(alloc, store, case.1, true)?
        && is_changed(alloc, store, case.2, false)?;
    match read_as(alloc, store, 100)? {
        Ok(rows) => Ok(is_done && rows.as_str() == case.3),
        Err(_) => Ok(false),
    }
}

#[test]
fn a_tree_is_a_set_of_rows_in_order(rt: HostRuntime) -> Result<(), Fail> {
    for (k, case) in SETS.iter().enumerate() {
        let mut store = store_of_a_set(rt.alloc())?;
        let right = is_left(rt.alloc(), &mut store, case)?;
        assert!(rt; right, "case {k}");
    }
    Ok(())
}

/// What is told of a tree that is read.
enum Told {
    Rows(&'static str),
    /// The number of the entry that holds no row.
    NoRow(u64),
    TooMany,
}

const ONE: ValueRef<'static> = ValueRef::Int(1);

const TWO: ValueRef<'static> = ValueRef::Int(2);

/// Entries of a tree, how many rows it may have at most, and what is told.
const ENTRIES: &[(&[&[ValueRef<'static>]], u64, Told)] = &[
    (&[], 0, Told::Rows("")),
    (&[&[ONE]], 0, Told::TooMany),
    (&[&[ONE], &[TWO]], 1, Told::TooMany),
    (&[&[TWO], &[ONE]], 2, Told::Rows("1 /2 /")),
    (
        &[&[ONE, ValueRef::Text(b"\xc3\xa9")]],
        9,
        Told::Rows("1 é /"),
    ),
    (&[&[ONE], &[ONE, ValueRef::Null]], 9, Told::NoRow(2)),
    (&[&[ONE], &[ValueRef::Null]], 9, Told::NoRow(1)),
    (&[&[ONE], &[ValueRef::Real(1.5)]], 9, Told::NoRow(2)),
    (
        &[&[ValueRef::Blob(b"a")], &[ONE], &[ValueRef::Text(b"a")]],
        9,
        Told::NoRow(3),
    ),
    (&[&[ValueRef::Blob(b"a")], &[ONE], &[TWO]], 2, Told::TooMany),
    (&[&[ValueRef::Text(b"a\xff")], &[ONE]], 9, Told::NoRow(2)),
    (&[&[ValueRef::Text(b"\xed\xa0\x80")]], 9, Told::NoRow(1)),
];

/// Puts the entries into tree 0: whether the store did so.
fn is_filled<S: Store>(
    alloc: Global,
    store: &mut S,
    entries: &[&[ValueRef<'static>]],
) -> Result<bool, AllocError> {
    let mut entry = Entry::new(alloc);
    for values in entries {
        entry.clear();
        for value in *values {
            entry.push(*value)?;
        }
        if !is_set(store) || store.insert(0, &entry).is_err() {
            return Ok(false);
        }
    }
    Ok(true)
}

fn is_told(found: &Result<String, ReadFault>, wanted: &Told) -> bool {
    match (found, wanted) {
        (Ok(rows), Told::Rows(text)) => rows.as_str() == *text,
        (Err(ReadFault::NoRow(number)), Told::NoRow(place)) => *number == *place,
        (Err(ReadFault::TooMany), Told::TooMany) => true,
        _ => false,
    }
}

#[test]
fn a_tree_is_read_as_rows_or_says_what_is_none(rt: HostRuntime) -> Result<(), Fail> {
    for (k, (entries, most, wanted)) in ENTRIES.iter().enumerate() {
        let mut store = store_of_a_set(rt.alloc())?;
        let is_full = is_filled(rt.alloc(), &mut store, entries)?;
        let right = is_told(&read_as(rt.alloc(), &mut store, *most)?, wanted);
        assert!(rt; is_full && right, "case {k}");
    }
    Ok(())
}

/// Whether the row of the row's entry is the row.
fn comes_back(alloc: Global, lines: &str) -> Result<bool, NoMemory> {
    let rows = rows_of(alloc, lines)?;
    let mut entry = Entry::new(alloc);
    for row in rows.as_slice() {
        fill_entry(&mut entry, row)?;
        match row_of(alloc, &entry)? {
            Some(back) => {
                if back.as_slice() != row.as_slice() {
                    return Ok(false);
                }
            }
            None => return Ok(false),
        }
    }
    Ok(true)
}

#[test]
fn a_row_comes_back_from_its_entry(rt: HostRuntime) -> Result<(), Fail> {
    let right = comes_back(rt.alloc(), "1 one;two 2 é;-5;  ")?;
    assert!(rt; right);
    Ok(())
}
