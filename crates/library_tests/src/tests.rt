ghost use Rattle.std.specs.Prelude.{◌≡◌, ◌<◌, IfOk, IfSome, length};
ghost use Rattle.su_maxobj.specs.MaximalObjects.{AreMaximalObjects};
ghost use Rattle.su_query.specs.Limits.{AreFew, HasFew};

use library_certificate::least_terms;
use library_keys::{dependent_on, key_of};
use library_query::ask;
use library_tableaux::{are_equivalent, draw, least_part};
use std::alloc::Global;
use std::marker::Brand;
use std::process::Abort;
use std::sync::ledger::{Blank, Ledger};
use std::test::Fail;
use std::thread::Threads;
use su_base::{AttrSet, List, NoMemory, ObjSet};
use su_cases::{BANK, stored, told};
use su_maxobj::maximal_objects;
use su_plain::{PlainRows, PlainTable, plain_tables};
use su_query::{Query, Statement, read};
use su_samples::{fd, is_below, set_of};
use su_state::Database;
use su_tableau::{Sym, Tableau};

fn assert_same(rt: &impl Abort, found: AttrSet, expected: &[u8]) {
    assert!(rt; found.within(set_of(expected)));
    assert!(rt; set_of(expected).within(found));
}

/// 0 is an account, 1 its bank, 2 a customer, 3 the balance; 4, which the bank determines, stands elsewhere.
#[test]
fn an_account_and_its_customer_are_the_key(rt: HostRuntime) -> Result<(), Fail> {
    let fds = [fd(&[0], &[1]), fd(&[0], &[3]), fd(&[1], &[4])];
    let all = set_of(&[0, 1, 2, 3]);
    assert!(rt; is_below(all, 4));
    assert_same(&rt, key_of(&fds, all, 4), &[0, 2]);
    assert_same(&rt, dependent_on(&fds, all, set_of(&[0])), &[0, 1, 3]);
    Ok(())
}

/// The head's variable is 0, and there are two columns.
type Rows = &'static [&'static [u32]];

/// The rows of the one, those of the other, whether the two are equivalent, and the least part of the one.
const PAIRS: &[(Rows, Rows, bool, u64)] = &[
    (&[&[0, 1], &[0, 2]], &[&[0, 1]], true, 1),
    (&[&[0, 1], &[1, 2]], &[&[0, 1]], false, 3),
    (&[&[0, 1], &[2, 1], &[2, 3]], &[&[0, 3]], true, 1),
    (&[&[0, 0], &[0, 1]], &[&[0, 1]], false, 1),
];

/// The variables of these numbers.
fn variables(alloc: Global, numbers: &[u32]) -> Result<List<Sym>, NoMemory> {
    let mut row = List::new(alloc);
    for number in numbers {
        row.push(Sym::Var(*number))?;
    }
    Ok(row)
}

/// The tableau of these rows, whose head is variable 0.
fn drawn(alloc: Global, rows: Rows) -> Result<Option<Tableau>, NoMemory>
    ensures { IfOk result (λ made. IfSome made (λ t. (t.width ≡ 2) × (length t.head ≡ 1))) }
{
    let mut list = List::new(alloc);
    for row in rows {
        list.push(variables(alloc, row)?)?;
    }
    let mut head = List::new(alloc);
    head.push(Sym::Var(0))?;
    Ok(draw(alloc, 2, list, head))
}

/// Whether the two are equivalent, and the least part of the one.
fn compared(alloc: Global, one: Rows, other: Rows) -> Result<Option<(bool, u64)>, NoMemory> {
    let Some(t) = drawn(alloc, one)? else {
        return Ok(None);
    };
    let Some(s) = drawn(alloc, other)? else {
        return Ok(None);
    };
    let same = are_equivalent(alloc, &t, &s)?;
    let kept = least_part(alloc, t)?;
    Ok(Some((same, kept)))
}

#[test]
fn rows_that_go_to_others_are_left_out(rt: HostRuntime) -> Result<(), Fail> {
    for (one, other, same, kept) in PAIRS {
        let found = compared(rt.alloc(), one, other)?;
        assert!(rt; found == Some((*same, *kept)));
    }
    Ok(())
}

/// Texts, and how many terms they show to be least.
const CERTIFICATES: &[(&str, Option<u32>)] = &[
    (
        "certificate 2 kinds int int term 0 head v0 rows (v0 v1) (v0 v2) kept 0 fold 0 0 tree 0 (0)",
        Some(1),
    ),
    (
        "certificate 2 kinds int int term 0 head v0 rows (v0 v1) (v0 v2) kept 0 fold 0 1 tree 0 (0)",
        None,
    ),
    ("certificate 1 kinds int", Some(0)),
    ("", None),
];

/// How many terms the text shows to be least.
fn shown(alloc: Global, text: &str) -> Result<Option<u32>, NoMemory> {
    if text.len() > 65536 {
        return Ok(None);
    }
    least_terms(alloc, text.as_bytes())
}

#[test]
fn a_certificate_shows_its_terms(rt: HostRuntime) -> Result<(), Fail> {
    for (text, terms) in CERTIFICATES {
        let found = shown(rt.alloc(), text)?;
        assert!(rt; found == *terms);
    }
    Ok(())
}

/// Each a relation, and the words of a row.
const ROWS: [(&str, &str); 4] = [
    ("BA", "B1 1"),
    ("AC", "1 Jones"),
    ("BL", "B3 7"),
    ("LC", "7 Jones"),
];

/// The rows of the query over a store that holds the database's rows, as they are told; none where it is refused.
fn asked<R: Threads + Sync, L: Ledger>(
    rt: &R,
    alloc: Global,
    db: &Database,
    maximal: &[ObjSet],
    query: &Query,
    tables: &[PlainTable],
    blank: Blank,
) -> Option<String>
    requires few { AreFew query.now.outputs query.now.cond }
    requires maximal { AreMaximalObjects db.now.schema maximal.now }
    requires rows { tables.now ≡ db.now.tables }
    requires name { blank.name ≡ L.name }
    requires parts { blank.parts ≡ L.parts }
    requires some { 0 < blank.parts }
{
    db.keeps_its_rules();
    let mut store = PlainRows::<L>::new(tables, blank);
    match ask(rt, alloc, db, maximal, query, &mut store) {
        Ok(rows) => told(alloc, rows.as_slice()).ok(),
        Err(_) => None,
    }
}

/// The same of the query of a statement.
fn asked_of<R: Threads + Sync>(
    rt: &R,
    alloc: Global,
    db: &Database,
    statement: &Statement,
) -> Option<String>
    requires { HasFew statement.now }
{
    let maximal = maximal_objects(alloc, db.schema()).ok()?;
    let tables = plain_tables(alloc, db.tables()).ok()?;
    match statement {
        Statement::Retrieve(query) => asked::<R, Brand>(
            rt,
            alloc,
            db,
            maximal.as_slice(),
            query,
            tables.as_slice(),
            Blank::new(1),
        ),
        _ => None,
    }
}

/// The same of the query that is the text.
fn asked_by<R: Threads + Sync>(rt: &R, alloc: Global, db: &Database, text: &str) -> Option<String> {
    match read(alloc, text.as_bytes()) {
        Ok(statement) => asked_of(rt, alloc, db, &statement),
        Err(_) => None,
    }
}

/// Whether the banks of Jones are told so.
fn is_told_as<R: Threads + Sync>(rt: &R, alloc: Global, db: &Database, want: &str) -> bool {
    match asked_by(rt, alloc, db, "retrieve (BANK) where CUST = 'Jones'") {
        Some(text) => text.as_str() == want,
        None => false,
    }
}

#[test]
fn a_store_answers_as_the_database_does(rt: HostRuntime) -> Result<(), Fail> {
    let db = stored(rt.alloc(), BANK, &ROWS)?;
    let is_told = match &db {
        Some(db) => is_told_as(&rt, rt.alloc(), db, "B1 /B3 /"),
        None => false,
    };
    assert!(rt; is_told);
    Ok(())
}
