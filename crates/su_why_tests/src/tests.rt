ghost use Rattle.std.specs.Prelude.{IfSome};
ghost use Rattle.su_query.specs.Ranges.{IsResolved};
ghost use Rattle.su_answer.specs.Prepared.{IsPreparedOn};

use std::alloc::{AllocError, Global};
use std::fmt::Write;
use std::test::Fail;
use std::thread::Threads;
use su_answer::{Prepared, prepare};
use su_blame::Blame;
use su_cases::{BANK, query_of, row_of, stored};
use su_maxobj::maximal_objects;
use su_par::OpenGate;
use su_query::Resolved;
use su_state::Database;
use su_why::{WhyNot, why_empty, why_not};

/// A university in which the departments of students, of courses and of teachers are one attribute.
const UNIVERSITY: &str = "\
attribute STUDENT text; attribute COURSE text; attribute DEPT text; attribute TEACHER text;
relation TAKES (S text, C text);
relation SD (S text, D text);
relation CD (C text, D text);
relation TEACHES (T text, C text);
relation TD (T text, D text);
object TAKES (STUDENT, COURSE) from TAKES (S, C);
object STUDENT_DEPT (STUDENT, DEPT) from SD (S, D);
object COURSE_DEPT (COURSE, DEPT) from CD (C, D);
object TEACHES (TEACHER, COURSE) from TEACHES (T, C);
object TEACHER_DEPT (TEACHER, DEPT) from TD (T, D);
maximal (TAKES, STUDENT_DEPT, COURSE_DEPT, TEACHES, TEACHER_DEPT)
";

/// A schema, its rows, a query, and what is to blame for each of its kept terms: rows and behind them
/// comparisons by their places, a stroke behind each term, a point for one that has rows.
type Case = (
    &'static str,
    &'static [(&'static str, &'static str)],
    &'static str,
    &'static str,
);

const ACCOUNTS: [(&str, &str); 5] = [
    ("BA", "B1 1"),
    ("AC", "1 Jones"),
    ("AC", "2 Smith"),
    ("AB", "1 100"),
    ("AB", "2 250"),
];

const CASES: [Case; 8] = [
    (
        BANK,
        &ACCOUNTS,
        "retrieve (BANK) where CUST = 'Jones'",
        "./0 /",
    ),
    (
        BANK,
        &ACCOUNTS,
        "retrieve (BANK) where CUST = 'Smith'",
        "0 1 /0 /",
    ),
    (
        BANK,
        &ACCOUNTS,
        "retrieve (BANK) where CUST = 'Nobody'",
        "1 /0 /",
    ),
    (BANK, &[], "retrieve (ADDR)", "0 /"),
    (
        BANK,
        &ACCOUNTS,
        "retrieve (t.CUST) where t.BAL > BAL and ACCT = 1",
        "./",
    ),
    (
        BANK,
        &ACCOUNTS,
        "retrieve (t.CUST) where t.BAL > BAL and ACCT = 2",
        "1 2 3 /",
    ),
    (
        UNIVERSITY,
        &[
            ("TAKES", "s1 c1"),
            ("SD", "s1 cs"),
            ("CD", "c1 math"),
            ("TEACHES", "t1 c1"),
            ("TD", "t1 math"),
        ],
        "retrieve (STUDENT, TEACHER)",
        "1 2 /",
    ),
    (
        UNIVERSITY,
        &[
            ("TAKES", "s1 c1"),
            ("SD", "s1 cs"),
            ("SD", "s2 math"),
            ("CD", "c1 math"),
            ("CD", "c2 cs"),
            ("TEACHES", "t1 c1"),
            ("TD", "t1 math"),
        ],
        "retrieve (STUDENT, TEACHER)",
        "0 1 2 /",
    ),
];

/// A query over the accounts, a row, and why it is no answer of each kept term: as above, or the place at
/// which the head clashes with it.
type Missing = (&'static str, &'static str, &'static str);

const MISSING: [Missing; 6] = [
    ("retrieve (BANK) where CUST = 'Jones'", "B1", "./0 /"),
    ("retrieve (BANK) where CUST = 'Jones'", "B2", "0 /0 /"),
    (
        "retrieve (BANK) where CUST = 'Jones'",
        "B1 B1",
        "head 1/head 1/",
    ),
    (
        "retrieve (CUST, BANK) where CUST = 'Jones'",
        "Smith B1",
        "head 0/head 0/",
    ),
    (
        "retrieve (ACCT, t.ACCT) where ACCT = t.ACCT",
        "1 2",
        "head 1/",
    ),
    (
        "retrieve (t.CUST) where t.BAL > BAL and ACCT = 1",
        "Jones",
        "0 1 2 3 /",
    ),
];

/// The query, prepared.
fn prepared<R: Threads + Sync>(
    rt: &R,
    alloc: Global,
    db: &Database,
    resolved: &Resolved,
) -> Option<Prepared>
    requires { IsResolved db.now.schema resolved.now }
    ensures { IfSome result (IsPreparedOn db.now.schema) }
{
    match maximal_objects(alloc, db.schema()) {
        Ok(maximal) => {
            match prepare(rt, alloc, db, maximal.as_slice(), resolved, 1, &OpenGate) {
                Ok(prepared) => Some(prepared),
                Err(_) => None,
            }
        }
        Err(_) => None,
    }
}

/// The numbers, each with a space behind it, and a stroke; a point and a stroke for none.
fn push_told(out: &mut String, found: &Option<Blame>) -> Result<(), AllocError> {
    match found {
        None => out.push('.')?,
        Some(Blame::Least(set) | Blame::Narrow(set)) => {
            for i in set.as_slice() {
                write!(out, "{i} ")?;
            }
        }
    }
    out.push('/')
}

/// What is told to be to blame.
fn told(alloc: Global, whys: &[Option<Blame>]) -> Result<String, AllocError> {
    let mut out = String::new(alloc);
    for found in whys {
        push_told(&mut out, found)?;
    }
    Ok(out)
}

/// Whether this is told of the query.
fn is_told<R: Threads + Sync>(
    rt: &R,
    alloc: Global,
    db: &Database,
    text: &str,
    want: &str,
) -> bool {
    let Some(resolved) = query_of(alloc, db.schema(), text) else {
        return false;
    };
    let Some(prepared) = prepared(rt, alloc, db, &resolved) else {
        return false;
    };
    match why_empty(alloc, db, &prepared) {
        Ok(whys) => match told(alloc, whys.as_slice()) {
            Ok(text) => text.as_str() == want,
            Err(_) => false,
        },
        Err(_) => false,
    }
}

/// Whether the case is met.
fn is_met<R: Threads + Sync>(rt: &R, alloc: Global, case: Case) -> bool {
    let (schema, rows, text, want) = case;
    match stored(alloc, schema, rows) {
        Ok(Some(db)) => is_told(rt, alloc, &db, text, want),
        _ => false,
    }
}

#[test]
fn each_empty_term_has_its_blame(rt: HostRuntime) -> Result<(), Fail> {
    for case in CASES {
        assert!(rt; is_met(&rt, rt.alloc(), case), "{}", case.2);
    }
    Ok(())
}

/// What is told of why the row is missing.
fn told_missing(alloc: Global, whys: &[WhyNot]) -> Result<String, AllocError> {
    let mut out = String::new(alloc);
    for why in whys {
        match why {
            WhyNot::Head(place) => write!(&mut out, "head {place}/")?,
            WhyNot::Rows(found) => push_told(&mut out, found)?,
        }
    }
    Ok(out)
}

/// Whether this is told of the row.
fn is_denied<R: Threads + Sync>(rt: &R, alloc: Global, db: &Database, case: Missing) -> bool {
    let (text, words, want) = case;
    let Some(resolved) = query_of(alloc, db.schema(), text) else {
        return false;
    };
    let Some(prepared) = prepared(rt, alloc, db, &resolved) else {
        return false;
    };
    let Ok(row) = row_of(alloc, words) else {
        return false;
    };
    match why_not(alloc, db, &prepared, &row) {
        Ok(whys) => match told_missing(alloc, whys.as_slice()) {
            Ok(text) => text.as_str() == want,
            Err(_) => false,
        },
        Err(_) => false,
    }
}

/// Whether the case is met over the accounts.
fn is_met_by_accounts<R: Threads + Sync>(rt: &R, alloc: Global, case: Missing) -> bool {
    match stored(alloc, BANK, &ACCOUNTS) {
        Ok(Some(db)) => is_denied(rt, alloc, &db, case),
        _ => false,
    }
}

#[test]
fn each_missing_row_has_its_blame(rt: HostRuntime) -> Result<(), Fail> {
    for case in MISSING {
        assert!(rt;
            is_met_by_accounts(&rt, rt.alloc(), case),
            "{} {}",
            case.0,
            case.1
        );
    }
    Ok(())
}
