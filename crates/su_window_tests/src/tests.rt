ghost use Rattle.std.specs.Prelude.{◌<◌, All};
ghost use Rattle.std.specs.Bool.{OnTrue};

use std::alloc::{AllocError, Global};
use std::test::Fail;
use su_base::{List, NoMemory, Row};
use su_cases::{stored, told};
use su_state::Database;
use su_window::{WindowFault, window};

/// Three relations around A, B and C, with two ways from A to C.
const TRIANGLE: &str = "\
attribute A int; attribute B int; attribute C int;
relation P (A int, B int); object P (A, B) from P (A, B);
relation Q (B int, C int); object Q (B, C) from Q (B, C);
relation S (A int, C int); object S (A, C) from S (A, C);
fd A -> B; fd B -> C;
";

/// An attribute that no object has.
const ALONE: &str = "\
attribute A int; attribute B int;
relation P (A int); object P (A) from P (A);
fd A -> B;
";

/// A schema with rows, and what is told of the window over some attributes.
struct Case {
    schema: &'static str,
    rows: &'static [(&'static str, &'static str)],
    attributes: &'static str,
    told: &'static str,
}

const CASES: [Case; 8] = [
    Case {
        schema: TRIANGLE,
        rows: &[("P", "1 2"), ("Q", "2 3"), ("S", "1 4")],
        attributes: "A C",
        told: "inconsistent",
    },
    Case {
        schema: TRIANGLE,
        rows: &[("P", "1 2"), ("Q", "2 3")],
        attributes: "A C",
        told: "1 3 /",
    },
    // in the order that is asked for
    Case {
        schema: TRIANGLE,
        rows: &[("P", "5 2"), ("P", "1 2"), ("Q", "2 3")],
        attributes: "C A",
        told: "3 1 /3 5 /",
    },
    Case {
        schema: TRIANGLE,
        rows: &[("P", "1 2"), ("Q", "2 3")],
        attributes: "A A",
        told: "1 1 /",
    },
    // no row of S has a B, though each has one
    Case {
        schema: TRIANGLE,
        rows: &[("S", "1 4")],
        attributes: "A B",
        told: "",
    },
    Case {
        schema: ALONE,
        rows: &[],
        attributes: "A",
        told: "",
    },
    Case {
        schema: ALONE,
        rows: &[("P", "1")],
        attributes: "A",
        told: "1 /",
    },
    Case {
        schema: ALONE,
        rows: &[("P", "1")],
        attributes: "A B",
        told: "",
    },
];

fn numbers(alloc: Global, db: &Database, words: &str) -> Result<List<u8>, NoMemory> {
    let mut numbers = List::new(alloc);
    for word in words.split(' ') {
        if let Some(a) = db.schema().find_attribute(word) {
            numbers.push(a)?;
        }
    }
    Ok(numbers)
}

fn are_below(numbers: &[u8], n: usize) -> bool
    ensures { OnTrue result (All (λ a. a < n) numbers.now) }
{
    for a in numbers {
        if *a as usize >= n {
            return false;
        }
    }
    true
}

fn word(alloc: Global, answer: &Result<List<Row>, WindowFault>) -> Result<String, AllocError> {
    match answer {
        Ok(rows) => told(alloc, rows.as_slice()),
        Err(WindowFault::Limit) => String::from_str(alloc, "limit"),
        Err(WindowFault::Inconsistent { .. }) => String::from_str(alloc, "inconsistent"),
        Err(WindowFault::NoMemory) => Err(AllocError),
    }
}

/// What is told of the window over the attributes of these names.
fn shown(alloc: Global, db: &Database, words: &str) -> Result<String, NoMemory> {
    let attributes = numbers(alloc, db, words)?;
    if !are_below(attributes.as_slice(), db.schema().attributes()) {
        return Err(NoMemory);
    }
    let rows = window(alloc, db, attributes.as_slice());
    Ok(word(alloc, &rows)?)
}

fn holds(alloc: Global, case: &Case) -> Result<bool, NoMemory> {
    match stored(alloc, case.schema, case.rows)? {
        Some(db) => Ok(shown(alloc, &db, case.attributes)?.as_str() == case.told),
        None => Ok(false),
    }
}

#[test]
fn a_window_has_the_rows_that_every_universal_relation_has(rt: HostRuntime) -> Result<(), Fail> {
    for case in &CASES {
        assert!(rt; holds(rt.alloc(), case)?);
    }
    Ok(())
}
