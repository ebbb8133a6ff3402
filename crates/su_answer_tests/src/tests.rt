ghost use Rattle.std.specs.Prelude.{◌≤◌, IfSome};
ghost use Rattle.su_query.specs.Ranges.{IsResolved};
ghost use Rattle.su_answer.specs.Prepared.{IsPreparedOn};

use std::alloc::Global;
use std::test::Fail;
use std::thread::{Threads, join};
use su_answer::{Prepared, answer, prepare};
use su_base::Row;
use su_cases::{BANK, query_of, stored, told};
use su_gates::{InTurn, Meeting};
use su_maxobj::maximal_objects;
use su_par::{Gate, OpenGate};
use su_query::Resolved;
use su_state::Database;

/// Each a relation, and the words of a row.
const BANK_ROWS: [(&str, &str); 14] = [
    ("BA", "B1 1"),
    ("BA", "B2 2"),
    ("AC", "1 Jones"),
    ("AC", "2 Smith"),
    ("AB", "1 100"),
    ("AB", "2 250"),
    ("BL", "B3 7"),
    ("BL", "B1 8"),
    ("LC", "7 Jones"),
    ("LC", "8 Smith"),
    ("LA", "7 500"),
    ("LA", "8 900"),
    ("CA", "Jones Main"),
    ("CA", "Smith Oak"),
];

/// The query, prepared by so many workers through this gate.
fn prepared_by<R: Threads + Sync, G: Gate>(
    rt: &R,
    alloc: Global,
    db: &Database,
    resolved: &Resolved,
    workers: u8,
    gate: &G,
) -> Option<Prepared>
    requires resolved { IsResolved db.now.schema resolved.now }
    requires least { 1 ≤ workers }
    requires most { workers ≤ 16 }
    ensures { IfSome result (IsPreparedOn db.now.schema) }
{
    match maximal_objects(alloc, db.schema()) {
        Ok(maximal) => match prepare(rt, alloc, db, maximal.as_slice(), resolved, workers, gate) {
            Ok(prepared) => Some(prepared),
            Err(_) => None,
        },
        Err(_) => None,
    }
}

/// Whether the rows are told so.
fn are_told(alloc: Global, rows: &[Row], want: &str) -> bool {
    match told(alloc, rows) {
        Ok(text) => text.as_str() == want,
        Err(_) => false,
    }
}

/// Whether the query has these rows, by so many workers; one gate is for its terms, and one for the
/// kept ones.
fn answered_by<R: Threads + Sync, F: Gate, G: Gate>(
    rt: &R,
    alloc: Global,
    db: &Database,
    resolved: &Resolved,
    want: &str,
    workers: u8,
    gates: (&F, &G),
) -> bool
    requires resolved { IsResolved db.now.schema resolved.now }
    requires least { 1 ≤ workers }
    requires most { workers ≤ 16 }
{
    match prepared_by(rt, alloc, db, resolved, workers, gates.0) {
        Some(prepared) => match answer(rt, alloc, db, &prepared, workers, gates.1) {
            Ok(rows) => are_told(alloc, rows.as_slice(), want),
            Err(_) => false,
        },
        None => false,
    }
}

/// A query and the rows of its answer.
type Question = (&'static str, &'static str);

/// It takes two terms that are both kept.
const BANKS: Question = ("retrieve (BANK) where CUST = 'Jones'", "B1 /B3 /");

/// The accounts that are richer than the first: one term.
const RICHER: Question = (
    "retrieve (t.CUST) where t.BAL > BAL and ACCT = 1",
    "Smith /",
);

/// Whether the answer is found through these gates.
fn finds<R: Threads + Sync, F: Gate, G: Gate>(
    rt: &R,
    alloc: Global,
    db: &Database,
    question: Question,
    workers: u8,
    gates: (&F, &G),
) -> bool
    requires least { 1 ≤ workers }
    requires most { workers ≤ 16 }
{
    let (text, want) = question;
    match query_of(alloc, db.schema(), text) {
        Some(resolved) => answered_by(rt, alloc, db, &resolved, want, workers, gates),
        None => false,
    }
}

/// A caller's own thread, which passes the meeting as the job with this number.
#[derive(Drop)]
struct Caller<'a> {
    meeting: &'a Meeting,
    number: usize,
}

impl<'a> Gate for Caller<'a> {
    fn pass(&self, _job: usize) {
        self.meeting.pass(self.number);
    }
}

/// The bank with its rows.
fn bank(alloc: Global) -> Result<Database, Fail> {
    match stored(alloc, BANK, &BANK_ROWS)? {
        Some(db) => Ok(db),
        None => Err(Fail::from("no bank")),
    }
}

/// Whether Jones' banks are found through these gates.
fn finds_banks<R: Threads + Sync, G: Gate>(
    rt: &R,
    alloc: Global,
    workers: u8,
    gates: (&G, &G),
) -> Result<bool, Fail>
    requires least { 1 ≤ workers }
    requires most { workers ≤ 16 }
{
    let db = bank(alloc)?;
    Ok(finds(rt, alloc, &db, BANKS, workers, gates))
}

#[test]
fn two_terms_are_minimised_and_executed_side_by_side(rt: HostRuntime) -> Result<(), Fail> {
    let (minimised, executed) = (Meeting::default(), Meeting::default());
    let found = finds_banks(&rt, rt.alloc(), 2, (&minimised, &executed))?;
    assert!(rt; found);
    assert_eq!(rt;
        (minimised.passes(), executed.passes()),
        ((1, 1, 0), (1, 1, 0))
    );
    Ok(())
}

#[test]
fn one_worker_takes_the_terms_in_turn(rt: HostRuntime) -> Result<(), Fail> {
    let (minimised, executed) = (InTurn::default(), InTurn::default());
    let found = finds_banks(&rt, rt.alloc(), 1, (&minimised, &executed))?;
    assert!(rt; found);
    assert_eq!(rt; (minimised.passes(), executed.passes()), ((2, 0), (2, 0)));
    Ok(())
}

/// Whether the answers of both are found by two threads, each with two workers, where the one executes
/// through the gate while the other minimises.
fn find_side_by_side<R: Threads + Sync, G: Gate>(
    rt: &R,
    alloc: Global,
    questions: (Question, Question),
    gates: (&G, &G),
) -> Result<(bool, bool), Fail> {
    let db = bank(alloc)?;
    Ok(join(
        rt,
        || finds(rt, alloc, &db, questions.0, 2, (&OpenGate, gates.0)),
        || finds(rt, alloc, &db, questions.1, 2, (gates.1, &OpenGate)),
    ))
}

#[test]
fn one_thread_answers_while_another_prepares(rt: HostRuntime) -> Result<(), Fail> {
    let meeting = Meeting::default();
    let answers = Caller {
        meeting: &meeting,
        number: 0,
    };
    let prepares = Caller {
        meeting: &meeting,
        number: 1,
    };
    let found = find_side_by_side(&rt, rt.alloc(), (BANKS, BANKS), (&answers, &prepares))?;
    assert_eq!(rt; (found, meeting.passes()), ((true, true), (2, 2, 0)));
    Ok(())
}

#[test]
fn two_threads_find_the_answers_of_two_queries(rt: HostRuntime) -> Result<(), Fail> {
    let found = find_side_by_side(&rt, rt.alloc(), (BANKS, RICHER), (&OpenGate, &OpenGate))?;
    assert_eq!(rt; found, (true, true));
    Ok(())
}
