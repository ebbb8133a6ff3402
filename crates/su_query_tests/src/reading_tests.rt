//! What a text is read as. A worked case of the repository reads each limit at it and past it.
use std::alloc::Global;
use std::test::Fail;
use su_base::{List, NoMemory};
use su_query::{QueryFault, Statement, read, show};

/// The word in place of a statement.
fn refused(alloc: Global, fault: &QueryFault) -> Result<List<u8>, NoMemory> {
    let word = match fault {
        QueryFault::Syntax => "syntax",
        QueryFault::Limit(_) => "limit",
        _ => "else",
    };
    Ok(List::from_vec(Vec::from_slice(alloc, word.as_bytes())?))
}

fn shown(alloc: Global, outcome: &Result<Statement, QueryFault>) -> Result<List<u8>, NoMemory> {
    match outcome {
        Ok(statement) => show(alloc, statement),
        Err(fault) => refused(alloc, fault),
    }
}

/// The statement that the text is, as it is shown, or a word that says why it is none.
fn told(alloc: Global, text: &[u8]) -> Result<List<u8>, NoMemory> {
    let outcome = read(alloc, text);
    shown(alloc, &outcome)
}

/// Texts, each with what is told of it.
const TOLD: &[(&str, &str)] = &[
    ("insert P(007,-0 ,'it''s')", "insert P (7, 0, 'it''s')"),
    ("insert P ()", "syntax"),
    ("insert P (A)", "syntax"),
    ("insert P (1,)", "syntax"),
    ("insert where (1)", "syntax"),
    ("insert P (1) (2)", "syntax"),
    ("delete  P( 'a' )", "delete P ('a')"),
    ("delete P where((A!=1))", "delete P where A != 1"),
    ("delete P where A = 1 or not (B = t.A)", "syntax"),
    ("delete P where", "syntax"),
    ("delete P", "syntax"),
    ("load P from'p.csv'", "load P from 'p.csv'"),
    ("load P from p", "syntax"),
    ("print P -- and no more", "print P"),
    ("print P, Q", "syntax"),
    ("print print", "syntax"),
    ("schema\n", "schema"),
    ("Schema", "syntax"),
    ("closure(A,A)", "closure (A, A)"),
    ("closure ()", "syntax"),
    ("retrieve(A,t . B)", "retrieve (A, t.B)"),
    ("retrieve (t.B.C)", "syntax"),
    ("retrieve A", "syntax"),
    ("", "syntax"),
    ("explain retrieve (A)", "explain retrieve (A)"),
    ("explain  with\nretrieve(A)", "explain with retrieve (A)"),
    ("explain  from\nretrieve(A)", "explain from retrieve (A)"),
    ("explain from with retrieve (A)", "syntax"),
    ("explain print P", "syntax"),
    (
        "compare(retrieve(A))with( retrieve (t.B) where B=1 )",
        "compare (retrieve (A)) with (retrieve (t.B) where B = 1)",
    ),
    ("compare (retrieve (A)), (retrieve (B))", "syntax"),
    ("compare ((retrieve (A))) with (retrieve (B))", "syntax"),
    (
        "compare (retrieve (A)) with (explain retrieve (B))",
        "syntax",
    ),
    ("window( A,B )", "window (A, B)"),
    ("window (t.A)", "syntax"),
    ("window (A) where A = 1", "syntax"),
];

/// Conditions, each with how it is shown: parts of `and` and `or` stand in parentheses.
const CONDITIONS: &[(&str, &str)] = &[
    ("retrieve (A)where A<=-1", "retrieve (A) where A <= -1"),
    (
        "retrieve (A) where A = 1 or B = 2 and C = 3",
        "retrieve (A) where A = 1 or (B = 2 and C = 3)",
    ),
    (
        "retrieve (A) where (A = 1 or B = 2) and (C = 3)",
        "retrieve (A) where (A = 1 or B = 2) and C = 3",
    ),
    (
        "retrieve (A) where not (A = 1) and B = 2",
        "retrieve (A) where not A = 1 and B = 2",
    ),
    (
        "retrieve (A) where not (A = 1 and B = 2)",
        "retrieve (A) where not (A = 1 and B = 2)",
    ),
    (
        "retrieve (A) where not (not A = 1)",
        "retrieve (A) where not (not A = 1)",
    ),
    (
        "retrieve (A) where A = 1 or (B = 2 or C = 3)",
        "retrieve (A) where A = 1 or (B = 2 or C = 3)",
    ),
    ("retrieve (A) where", "syntax"),
    ("retrieve (A) where A -> 1", "syntax"),
    ("retrieve (A) where A = 1 = 1", "syntax"),
    ("retrieve (A) where A = 1 and", "syntax"),
    ("retrieve (A) where not not A = 1", "syntax"),
    ("retrieve (A) where (A) = 1", "syntax"),
    ("retrieve (A) where (A = 1", "syntax"),
    ("retrieve (A) where A = 1)", "syntax"),
];

#[test]
fn a_text_is_shown_as_its_statement_or_is_none(rt: HostRuntime) -> Result<(), Fail> {
    for (text, want) in TOLD {
        let found = told(rt.alloc(), text.as_bytes())?;
        assert_eq!(rt; found.as_slice(), want.as_bytes(), "{text}");
    }
    Ok(())
}

#[test]
fn not_binds_tighter_than_and_and_and_than_or(rt: HostRuntime) -> Result<(), Fail> {
    for (text, want) in CONDITIONS {
        let found = told(rt.alloc(), text.as_bytes())?;
        assert_eq!(rt; found.as_slice(), want.as_bytes(), "{text}");
    }
    Ok(())
}
