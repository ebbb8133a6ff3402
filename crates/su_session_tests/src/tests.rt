use std::alloc::Global;
use std::test::Fail;
use std::thread::Threads;
use su_base::NoMemory;
use su_cases::{BANK, schema_of};
use su_gates::Meeting;
use su_par::{Gate, OpenGate};
use su_session::Session;

const SCHEMA: &str = "\
attribute A int; attribute B int; attribute T text;
relation P (A int, B int); relation S (T text);
object AB (A, B) from P (A, B); object OT (T) from S (T);
fd A -> B;
";

/// The content of every file.
const FILE: &str = "A,B\n1,1\n2,3\n";

/// Statements one after another, with their replies.
const STEPS: &[(&str, &str)] = &[
    ("insert P (1, 1)", "inserted 1\n"),
    ("insert P (1, 1)", "inserted 0\n"),
    ("insert Q (1)", "refused: unknown relation Q\n"),
    ("insert P (1)", "refused: width 1, relation has 2\n"),
    ("insert P (1, 'x')", "refused: kind of column B\n"),
    (
        "insert P (1, 2)",
        "refused: breaks A -> B with row (1, 1)\n",
    ),
    ("load P from 'p.csv'", "loaded 1 of 2\n"),
    ("load S from 'p.csv'", "refused: header\n"),
    ("print P", "rows 2\nA,B\n1,1\n2,3\n"),
    ("retrieve (B) where A = 2", "rows 1\nB\n3\n"),
    ("retrieve (X)", "refused: unknown attribute X\n"),
    (
        "retrieve (A, T)",
        "refused: no maximal object covers -: A T\n",
    ),
    ("closure (A)", "closure A B\n  by A -> B\n"),
    ("window (B, A)", "rows 2\nB,A\n1,1\n3,2\n"),
    ("window (A)", "rows 2\nA\n1\n2\n"),
    ("insert P (3, 3)", "inserted 1\n"),
    ("window (A)", "rows 3\nA\n1\n2\n3\n"),
    ("delete P (3, 3)", "deleted 1\n"),
    ("window (B)", "rows 2\nB\n1\n3\n"),
    (
        "compare (retrieve (A)) with (retrieve (T))",
        "refused: outputs differ\n",
    ),
    ("delete P where B > 'x'", "refused: kinds int and text\n"),
    ("delete P where B > 1 and not A = 1", "deleted 1\n"),
    ("delete P (1, 1)", "deleted 1\n"),
    ("delete P (1, 1)", "deleted 0\n"),
    ("fd X -> A", "refused: unknown X\n"),
    ("prnt P", "refused: syntax\n"),
    ("", "refused: syntax\n"),
];

fn opened(alloc: Global, schema: &str) -> Result<Option<Session>, NoMemory> {
    match schema_of(alloc, schema) {
        Some(schema) => Ok(Some(Session::open(alloc, schema)?)),
        None => Ok(None),
    }
}

/// Whether the statement is replied to so.
fn is_replied<R: Threads + Sync>(
    rt: &R,
    session: &mut Session,
    text: &str,
    want: &str,
) -> Result<bool, NoMemory> {
    let file = Some(FILE.as_bytes());
    let reply = session.step(rt, text.as_bytes(), file, 2, &OpenGate)?;
    let is_refused = want.starts_with("refused: ");
    Ok(reply.bytes.as_slice() == want.as_bytes() && reply.refused == is_refused)
}

/// The number of the first statement with another reply, or how many there are.
fn first_otherwise<R: Threads + Sync>(rt: &R, session: &mut Session) -> Result<usize, NoMemory> {
    for (k, (text, want)) in STEPS.iter().enumerate() {
        if !is_replied(rt, session, text, want)? {
            return Ok(k);
        }
    }
    Ok(STEPS.len())
}

/// The same in a session of its own; 0 also where the schema is refused.
fn first_of_its_own<R: Threads + Sync>(rt: &R, alloc: Global) -> Result<usize, NoMemory> {
    match opened(alloc, SCHEMA)? {
        Some(mut session) => first_otherwise(rt, &mut session),
        None => Ok(0),
    }
}

#[test]
fn statements_are_answered_one_after_another(rt: HostRuntime) -> Result<(), Fail> {
    let reached = first_of_its_own(&rt, rt.alloc())?;
    assert_eq!(rt; reached, STEPS.len());
    Ok(())
}

/// What fills the bank, a row each.
const BANK_ROWS: &[&str] = &[
    "insert BA ('B1', 1)",
    "insert BA ('B2', 2)",
    "insert AC (1, 'Jones')",
    "insert AC (2, 'Smith')",
    "insert AB (1, 100)",
    "insert AB (2, 250)",
    "insert BL ('B3', 7)",
    "insert BL ('B1', 8)",
    "insert LC (7, 'Jones')",
    "insert LC (8, 'Smith')",
    "insert LA (7, 500)",
    "insert LA (8, 900)",
    "insert CA ('Jones', 'Main')",
    "insert CA ('Smith', 'Oak')",
];

/// Whether each row of the bank is put in.
fn is_filled<R: Threads + Sync>(rt: &R, session: &mut Session) -> Result<bool, NoMemory> {
    for text in BANK_ROWS {
        if !is_replied(rt, session, text, "inserted 1\n")? {
            return Ok(false);
        }
    }
    Ok(true)
}

/// Whether two workers find Jones' banks, which takes two terms, both kept.
fn finds_banks<R: Threads + Sync, G: Gate>(
    rt: &R,
    session: &mut Session,
    gate: &G,
) -> Result<bool, NoMemory> {
    if !is_filled(rt, session)? {
        return Ok(false);
    }
    let query = "retrieve (BANK) where CUST = 'Jones'".as_bytes();
    let reply = session.step(rt, query, None, 2, gate)?;
    Ok(reply.bytes.as_slice() == "rows 2\nBANK\nB1\nB3\n".as_bytes())
}

/// The same in a session of its own; false also where the schema is refused.
fn finds_of_its_own<R: Threads + Sync, G: Gate>(
    rt: &R,
    alloc: Global,
    gate: &G,
) -> Result<bool, NoMemory> {
    match opened(alloc, BANK)? {
        Some(mut session) => finds_banks(rt, &mut session, gate),
        None => Ok(false),
    }
}

#[test]
fn two_terms_meet_as_they_are_minimised_and_as_they_are_executed(
    rt: HostRuntime,
) -> Result<(), Fail> {
    let gate = Meeting::default();
    let found = finds_of_its_own(&rt, rt.alloc(), &gate)?;
    assert!(rt; found);
    assert_eq!(rt; gate.passes(), (2, 2, 0));
    Ok(())
}
