ghost use Rattle.su_where.specs.Places.{Fits};

use std::alloc::Global;
use std::test::Fail;
use su_base::NoMemory;
use su_cases::{row_of, rows_of, stored, told};
use su_state::{Database, DefineFault, LoadEnd, LoadFault, StateFault};
use su_where::{Cond, Literal, Op, Operand};

/// Pairs, of which A determines B.
const PAIRS: &str = "\
attribute A int; attribute B int;
relation P (A int, B int);
object AB (A, B) from P (A, B);
fd A -> B;
";

/// What is asked of the database. A row is words, and rows have a `;` between them.
enum Step {
    Insert(&'static str),
    Delete(&'static str),
    Load(&'static str),
    Define(&'static str),
    /// Deletes the rows whose first value is at most the second.
    DeleteAscending,
}

/// How many rows are new or gone, or which of a load is refused, and a word for a refusal.
type Answer = (u64, &'static str);

fn refusal(fault: &StateFault) -> &'static str {
    match fault {
        StateFault::Width { .. } => "width",
        StateFault::Kind { .. } => "kind",
        StateFault::Breaks { .. } => "breaks",
        _ => "else",
    }
}

fn changed(answer: &Result<bool, StateFault>) -> Answer {
    match answer {
        Ok(is_changed) => (u64::from(*is_changed), ""),
        Err(fault) => (0, refusal(fault)),
    }
}

fn loaded(answer: &Result<u64, LoadEnd>) -> Answer {
    match answer {
        Ok(new) => (*new, ""),
        Err(LoadEnd::Refused(LoadFault { number, fault })) => (*number, refusal(fault)),
        Err(LoadEnd::NoMemory) => (0, "no memory"),
    }
}

fn defined(answer: &Result<(), DefineFault>) -> Answer {
    match answer {
        Ok(()) => (1, ""),
        Err(DefineFault::Breaks { .. }) => (0, "breaks"),
        Err(DefineFault::Schema(_)) => (0, "schema"),
        Err(DefineFault::NoMemory) => (0, "no memory"),
    }
}

fn define(alloc: Global, db: &mut Database, text: &str) -> Answer {
    match su_ddl::definition(alloc, text.as_bytes()) {
        Ok(definition) if definition.is_well_named() => defined(&db.define(&definition)),
        _ => (0, "no definition"),
    }
}

fn first_is_at_most_second() -> Cond
    ensures { Fits 2 result }
{
    Cond::Compare(Literal {
        left: Operand::Place(0),
        op: Op::LessEqual,
        right: Operand::Place(1),
    })
}

fn delete_ascending(db: &mut Database) -> Result<Answer, NoMemory> {
    let condition = first_is_at_most_second();
    if db.schema().relations() == 0 {
        return Ok((0, "no relation"));
    }
    if db.schema().columns(0).len() != 2 {
        return Ok((0, "no pairs"));
    }
    let gone = db.delete_where(0, &condition)?;
    Ok((gone, ""))
}

fn answer(alloc: Global, db: &mut Database, step: &Step) -> Result<Answer, NoMemory> {
    if db.schema().relations() == 0 {
        return Ok((0, "no relation"));
    }
    match step {
        Step::Insert(words) => Ok(changed(&db.insert(0, row_of(alloc, words)?))),
        Step::Delete(words) => Ok(changed(&db.delete(0, &row_of(alloc, words)?))),
        Step::Load(lines) => Ok(loaded(&db.load(0, rows_of(alloc, lines)?))),
        Step::Define(text) => Ok(define(alloc, db, text)),
        Step::DeleteAscending => delete_ascending(db),
    }
}

/// Steps one after another, with their answers.
const STEPS: &[(Step, Answer)] = &[
    (Step::Load("2 5;1 1;2 5"), (2, "")),
    (Step::Insert("2 5"), (0, "")),
    (Step::Insert("2 6"), (0, "breaks")),
    (Step::Insert("2"), (0, "width")),
    // a load has rows of any width and kind, and the first that is refused refuses all
    (Step::Load("3 3;4;5 x"), (2, "width")),
    (Step::Load("3 3;x 3;4"), (2, "kind")),
    (Step::Load("3 3;4 4;3 4"), (3, "breaks")),
    (Step::Load("3 3;2 6;4"), (2, "breaks")),
    (Step::Delete("3 3"), (0, "")),
    (Step::Delete("x 3"), (0, "kind")),
    (Step::Load("9 2;3 2"), (2, "")),
    // the last row moves to where this one was, and still stands against others
    (Step::Delete("2 5"), (1, "")),
    (Step::Insert("3 4"), (0, "breaks")),
    (Step::Insert("2 6"), (1, "")),
    (Step::Define("fd B -> A"), (0, "breaks")),
    (Step::Delete("9 2"), (1, "")),
    (Step::Define("fd B -> A"), (1, "")),
    (Step::Insert("8 1"), (0, "breaks")),
    (Step::Define("attribute A int"), (0, "schema")),
    (Step::DeleteAscending, (2, "")),
    (Step::DeleteAscending, (0, "")),
    (Step::Insert("7 1"), (1, "")),
];

/// The number of the first step with another answer, or how many there are.
fn first_otherwise(alloc: Global, db: &mut Database) -> Result<usize, NoMemory> {
    for (k, (step, want)) in STEPS.iter().enumerate() {
        if answer(alloc, db, step)? != *want {
            return Ok(k);
        }
    }
    Ok(STEPS.len())
}

/// The rows of the first relation, in order.
fn printed(alloc: Global, db: &Database) -> Result<String, NoMemory> {
    if db.schema().relations() == 0 {
        return Err(NoMemory);
    }
    let rows = db.rows(0)?;
    Ok(told(alloc, rows.as_slice())?)
}

#[test]
fn changes_are_taken_or_refused_one_after_another(rt: HostRuntime) -> Result<(), Fail> {
    let Some(mut db) = stored(rt.alloc(), PAIRS, &[])? else {
        return Err(Fail::from("no schema"));
    };
    assert_eq!(rt; first_otherwise(rt.alloc(), &mut db)?, STEPS.len());
    assert_eq!(rt; printed(rt.alloc(), &db)?.as_str(), "3 2 /7 1 /");
    Ok(())
}
