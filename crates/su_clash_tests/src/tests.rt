use std::alloc::Global;
use std::test::Fail;
use su_base::{List, NoMemory, sorted_values};
use su_cases::{stored, told};
use su_clash::{Clash, ClashFault, find_clash};
use su_state::Database;

/// Three relations around A, B and C, with two ways from A to C.
const TRIANGLE: &str = "\
attribute A int; attribute B int; attribute C int;
relation P (A int, B int); object P (A, B) from P (A, B);
relation Q (B int, C int); object Q (B, C) from Q (B, C);
relation S (A int, C int); object S (A, C) from S (A, C);
fd A -> B; fd B -> C;
";

/// A chain of dependencies from A to E.
const CHAIN: &str = "\
attribute A int; attribute B int; attribute C int; attribute D int; attribute E int;
relation P (A int, B int); object P (A, B) from P (A, B);
relation Q (B int, C int); object Q (B, C) from Q (B, C);
relation R (C int, D int); object R (C, D) from R (C, D);
relation S (D int, E int); object S (D, E) from S (D, E);
relation T (A int, E int); object T (A, E) from T (A, E);
fd A -> B; fd B -> C; fd C -> D; fd D -> E;
";

/// The department of a student, told in two relations.
const DEPARTMENTS: &str = "\
attribute STUDENT text; attribute DEPT text; attribute COURSE text;
relation SD (S text, D text); object SD (STUDENT, DEPT) from SD (S, D);
relation SCD (S text, C text, D text); object SCD (STUDENT, COURSE, DEPT) from SCD (S, C, D);
fd STUDENT -> DEPT;
";

/// A schema with rows, and what is told of its clash.
struct Case {
    schema: &'static str,
    rows: &'static [(&'static str, &'static str)],
    told: &'static str,
}

const CASES: [Case; 7] = [
    Case {
        schema: TRIANGLE,
        rows: &[("P", "1 2"), ("Q", "2 3")],
        told: "fits",
    },
    Case {
        schema: TRIANGLE,
        rows: &[],
        told: "fits",
    },
    // the B of S is 2 by the first dependency, so its C is 3 by the second
    Case {
        schema: TRIANGLE,
        rows: &[("P", "1 2"), ("Q", "2 3"), ("S", "1 4")],
        told: "3 4 / maybe not",
    },
    // rows that play no part change nothing
    Case {
        schema: TRIANGLE,
        rows: &[
            ("P", "7 8"),
            ("P", "1 2"),
            ("Q", "8 9"),
            ("Q", "2 3"),
            ("S", "7 9"),
            ("S", "1 4"),
        ],
        told: "3 4 / maybe not",
    },
    Case {
        schema: DEPARTMENTS,
        rows: &[
            ("SD", "ann cs"),
            ("SCD", "bob db cs"),
            ("SCD", "ann db math"),
        ],
        told: "cs math / fewest",
    },
    Case {
        schema: DEPARTMENTS,
        rows: &[
            ("SD", "ann cs"),
            ("SCD", "ann db cs"),
            ("SCD", "ann logic cs"),
        ],
        told: "fits",
    },
    Case {
        schema: CHAIN,
        rows: &[
            ("P", "1 2"),
            ("Q", "2 3"),
            ("R", "3 4"),
            ("S", "4 5"),
            ("T", "1 6"),
        ],
        told: "5 6 / maybe not",
    },
];

/// The two constants, the lesser first, and whether no shorter list is known of.
fn clash_text(alloc: Global, found: &Clash) -> Result<String, NoMemory> {
    let mut pair = List::new(alloc);
    pair.push(found.one.copy(alloc)?)?;
    pair.push(found.other.copy(alloc)?)?;
    let mut rows = List::new(alloc);
    rows.push(sorted_values(pair))?;
    let pair = told(alloc, rows.as_slice())?;
    let rest = if found.fewest { "fewest" } else { "maybe not" };
    Ok(format!(in alloc; "{} {}", pair.as_str(), rest)?)
}

fn verdict(alloc: Global, db: &Database) -> Result<String, NoMemory> {
    match find_clash(alloc, db) {
        Ok(Some(found)) => clash_text(alloc, &found),
        Ok(None) => Ok(String::from_str(alloc, "fits")?),
        Err(ClashFault::Limit) => Ok(String::from_str(alloc, "limit")?),
        Err(ClashFault::NoMemory) => Err(NoMemory),
    }
}

fn holds(alloc: Global, case: &Case) -> Result<bool, NoMemory> {
    match stored(alloc, case.schema, case.rows)? {
        Some(db) => Ok(verdict(alloc, &db)?.as_str() == case.told),
        None => Ok(false),
    }
}

#[test]
fn constants_that_would_have_to_be_equal_are_told(rt: HostRuntime) -> Result<(), Fail> {
    for case in &CASES {
        assert!(rt; holds(rt.alloc(), case)?);
    }
    Ok(())
}
