ghost use Rattle.std.specs.Prelude.{◌≡◌, IfOk, length};
ghost use Rattle.su_rel.specs.Stored.{HaveWidth};

use std::alloc::Global;
use std::test::Fail;
use su_base::{List, NoMemory, Row, Str, Value};
use su_rel::Relation;

fn row(alloc: Global, number: i64, text: &str) -> Result<Row, NoMemory>
    ensures { IfOk result (λ row. length row ≡ 2) }
{
    let mut row = List::new(alloc);
    row.push(Value::Int(number))?;
    row.push(Value::Text(Str::new(alloc, text)?))?;
    Ok(row)
}

/// What is done with the row of a text, and what is answered.
#[derive(Clone, Copy)]
enum Step {
    Insert(bool),
    Remove(bool),
    Find(Option<usize>),
}

use Step::{Find, Insert, Remove};

/// Steps one after another: the last row moves to where one is taken out.
const STEPS: &[(&str, Step)] = &[
    ("a", Insert(true)),
    ("", Insert(true)),
    ("a", Insert(false)),
    ("b", Insert(true)),
    ("c", Insert(true)),
    ("b", Insert(false)),
    ("b", Find(Some(2))),
    ("d", Remove(false)),
    ("", Remove(true)),
    ("", Remove(false)),
    ("b", Remove(true)),
    ("a", Find(Some(0))),
    ("c", Find(Some(1))),
    ("b", Find(None)),
    ("b", Insert(true)),
    ("b", Find(Some(2))),
];

/// Whether the row is new; nothing where it is refused.
fn put(relation: &mut Relation, row: Row) -> Option<bool> {
    if row.len() != relation.width() as usize {
        return None;
    }
    relation.insert(row).ok()
}

/// Whether the step answers so.
fn is_answered(relation: &mut Relation, row: Row, step: Step) -> bool {
    match step {
        Insert(new) => put(relation, row) == Some(new),
        Remove(there) => relation.remove(&row) == there,
        Find(place) => relation.position(&row) == place,
    }
}

/// The number of the first step with another answer, or how many there are.
fn first_otherwise(alloc: Global, relation: &mut Relation) -> Result<usize, NoMemory> {
    for (k, (text, step)) in STEPS.iter().enumerate() {
        let row = row(alloc, 7, text)?;
        if !is_answered(relation, row, *step) {
            return Ok(k);
        }
    }
    Ok(STEPS.len())
}

/// The same of a relation that has no row yet.
fn first_of_a_new_one(alloc: Global) -> Result<usize, NoMemory> {
    let mut relation = Relation::new(alloc, 2);
    first_otherwise(alloc, &mut relation)
}

#[test]
fn a_relation_holds_each_row_once(rt: HostRuntime) -> Result<(), Fail> {
    let reached = first_of_a_new_one(rt.alloc())?;
    assert_eq!(rt; reached, STEPS.len());
    Ok(())
}

fn rows(alloc: Global) -> Result<List<Row>, NoMemory>
    ensures { IfOk result (HaveWidth 2) }
{
    let mut rows = List::new(alloc);
    for number in 0..100000 {
        rows.push(row(alloc, number / 2, "a")?)?;
    }
    Ok(rows)
}

/// Takes the rows in, and tells how many of them are new.
fn fill(alloc: Global, relation: &mut Relation) -> Result<usize, NoMemory>
    requires { relation.old.width ≡ 2 }
{
    relation.insert_all(rows(alloc)?)
}

/// Keeps the first ten rows.
fn keep_ten(alloc: Global, relation: &mut Relation) -> Result<(), NoMemory> {
    let mut kept = List::new(alloc);
    for place in 0..relation.len() {
        kept.push(place < 10)?;
    }
    if kept.len() == relation.len() {
        relation.keep(kept.as_slice());
    }
    Ok(())
}

fn remove_all(alloc: Global, relation: &mut Relation) -> Result<(), NoMemory> {
    for number in 0..100000 {
        let row = row(alloc, number, "a")?;
        let _there = relation.remove(&row);
    }
    Ok(())
}

/// How many rows are new at first, how many are kept of them, and whether none is left in the end.
fn counts(alloc: Global, relation: &mut Relation) -> Result<(usize, usize, bool), NoMemory>
    requires { relation.old.width ≡ 2 }
{
    let new = fill(alloc, relation)?;
    keep_ten(alloc, relation)?;
    let ten = relation.len();
    remove_all(alloc, relation)?;
    Ok((new, ten, relation.is_empty()))
}

/// The same of a relation without rows.
fn counts_of_new(alloc: Global) -> Result<(usize, usize, bool), NoMemory> {
    let mut relation = Relation::new(alloc, 2);
    counts(alloc, &mut relation)
}

#[test]
fn many_rows_go_in_and_out_at_once(rt: HostRuntime) -> Result<(), Fail> {
    let counts = counts_of_new(rt.alloc())?;
    assert_eq!(rt; counts, (50000, 10, true));
    Ok(())
}
