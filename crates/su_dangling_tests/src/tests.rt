use std::alloc::{AllocError, Global};
use std::test::Fail;
use su_base::NoMemory;
use su_cases::{objects_of, stored, told};
use su_dangling::{Dangling, dangling_in};

/// Two objects that share B, one of which has its columns the other way round.
const CHAIN: &str = "\
attribute A int; attribute B int; attribute C int;
relation P (A int, B int); object AB (A, B) from P (A, B);
relation Q (C int, B int); object BC (B, C) from Q (B, C);
";

/// Three objects in a cycle, over numbers and texts.
const CYCLE: &str = "\
attribute S text; attribute C text; attribute D int;
relation T (S text, C text); object SC (S, C) from T (S, C);
relation U (S text, D int); object SD (S, D) from U (S, D);
relation V (C text, D int); object CD (C, D) from V (C, D);
";

/// Two objects over one relation, each with a column less, and one that shares nothing with them.
const VIEWS: &str = "\
attribute A int; attribute B int; attribute C int;
relation R (X int, Y int); object OA (A) from R (X); object OB (B) from R (Y);
relation S (Z int); object OC (C) from S (Z);
";

/// A schema with rows, the objects whose views are joined, and what is told of each: its number, how many
/// rows it has, how many join, how many dangle, and the least of these.
struct Case {
    schema: &'static str,
    rows: &'static [(&'static str, &'static str)],
    objects: &'static [u8],
    told: &'static str,
}

const CASES: [Case; 9] = [
    Case {
        schema: CHAIN,
        rows: &[("P", "1 2"), ("P", "3 4"), ("Q", "5 2"), ("Q", "6 2")],
        objects: &[0, 1],
        told: "0: 2 1 1 3 4 /; 1: 2 2 0 ; ",
    },
    // four dangle, and three are told, in ascending order
    Case {
        schema: CHAIN,
        rows: &[("Q", "9 7"), ("Q", "9 1"), ("Q", "2 7"), ("Q", "1 8")],
        objects: &[0, 1],
        told: "0: 0 0 0 ; 1: 4 0 4 1 9 /7 2 /7 9 /; ",
    },
    // by itself each row takes part
    Case {
        schema: CHAIN,
        rows: &[("P", "1 2"), ("P", "3 4"), ("Q", "5 2")],
        objects: &[0],
        told: "0: 2 2 0 ; ",
    },
    // two by two they meet, but not all three
    Case {
        schema: CYCLE,
        rows: &[("T", "ann c1"), ("U", "ann 1"), ("V", "c1 2")],
        objects: &[0, 1, 2],
        told: "0: 1 0 1 ann c1 /; 1: 1 0 1 ann 1 /; 2: 1 0 1 c1 2 /; ",
    },
    Case {
        schema: CYCLE,
        rows: &[("T", "ann c1"), ("U", "ann 1"), ("V", "c1 2")],
        objects: &[0, 2],
        told: "0: 1 1 0 ; 2: 1 1 0 ; ",
    },
    Case {
        schema: CYCLE,
        rows: &[
            ("T", "ann c1"),
            ("T", "bob c1"),
            ("U", "ann 1"),
            ("U", "bob 2"),
            ("V", "c1 1"),
        ],
        objects: &[0, 1, 2],
        told: "0: 2 1 1 bob c1 /; 1: 2 1 1 bob 2 /; 2: 1 1 0 ; ",
    },
    // rows of a view are counted once
    Case {
        schema: VIEWS,
        rows: &[("R", "1 7"), ("R", "1 8"), ("R", "2 7"), ("S", "3")],
        objects: &[0, 1, 2],
        told: "0: 2 2 0 ; 1: 2 2 0 ; 2: 1 1 0 ; ",
    },
    // what shares nothing is joined all the same
    Case {
        schema: VIEWS,
        rows: &[("R", "1 7"), ("R", "1 8")],
        objects: &[0, 1, 2],
        told: "0: 1 0 1 1 /; 1: 2 0 2 7 /8 /; 2: 0 0 0 ; ",
    },
    Case {
        schema: VIEWS,
        rows: &[("R", "1 7")],
        objects: &[],
        told: "",
    },
];

fn line(alloc: Global, d: &Dangling) -> Result<String, AllocError> {
    let rows = told(alloc, d.least.as_slice())?;
    format!(in alloc;
        "{}: {} {} {} {}; ",
        d.object,
        d.rows,
        d.joined,
        d.dangling,
        rows.as_str()
    )
}

fn lines(alloc: Global, found: &[Dangling]) -> Result<String, AllocError> {
    let mut out = String::new(alloc);
    for d in found {
        let line = line(alloc, d)?;
        out.push_str(line.as_str())?;
    }
    Ok(out)
}

fn is_told(alloc: Global, case: &Case) -> Result<bool, NoMemory> {
    let Some(db) = stored(alloc, case.schema, case.rows)? else {
        return Ok(false);
    };
    let found = dangling_in(alloc, &db, objects_of(case.objects))?;
    let text = lines(alloc, found.as_slice())?;
    Ok(text.as_str() == case.told)
}

#[test]
fn rows_dangle_where_they_are_in_no_join(rt: HostRuntime) -> Result<(), Fail> {
    for case in &CASES {
        assert!(rt; is_told(rt.alloc(), case)?);
    }
    Ok(())
}
