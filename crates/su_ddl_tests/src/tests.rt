use std::alloc::Global;
use std::test::Fail;
use su_base::{List, NoMemory};
use su_ddl::{DdlFault, definition, read, show};
use su_schema::{Schema, SchemaFault};

/// Texts, and whether each is a definition.
const TEXTS: &[(&str, bool)] = &[
    ("attribute A int", true),
    ("-- one\n attribute A text -- and no more", true),
    ("relation R (A int, B text)", true),
    ("object O (A, B) from R (C, D)", true),
    ("fd A, B -> C", true),
    ("maximal (O, P)", true),
    ("maximal (Where)", true),
    ("", false),
    ("attribute A", false),
    ("attribute A integer", false),
    ("attribute int int", false),
    ("attribute A int,", false),
    ("attribute where text", false),
    ("Attribute A int", false),
    ("relation R ()", false),
    ("relation R (A int B text)", false),
    ("relation R (A int,)", false),
    ("relation R (A)", false),
    ("object O (A, B) from R (C)", false),
    ("object O (A) R (C)", false),
    ("object O (A) from (C)", false),
    ("fd A -> ", false),
    ("fd -> A", false),
    ("fd A, -> B", false),
    ("maximal ()", false),
    ("maximal O", false),
];

#[test]
fn a_text_is_a_definition_by_the_grammar(rt: HostRuntime) -> Result<(), Fail> {
    for (text, is_definition) in TEXTS {
        let found = definition(rt.alloc(), text.as_bytes()).is_ok();
        assert!(rt; found == *is_definition, "{text}");
    }
    Ok(())
}

/// The number of the statement at fault, 0 where there is none, a word for the fault, and its name.
type Told<'a> = (u32, &'a str, &'a str);

fn refusal(number: u32, fault: &SchemaFault) -> Told<'_> {
    match fault {
        SchemaFault::Twice(name) => (number, "twice", name.as_str()),
        SchemaFault::Unknown(name) => (number, "unknown", name.as_str()),
        SchemaFault::KindDiffers { attribute, .. } => (number, "kinds", attribute.as_str()),
        SchemaFault::Limit(_) => (number, "limit", ""),
        SchemaFault::NoMemory => (number, "no memory", ""),
    }
}

fn told(outcome: &Result<Schema, DdlFault>) -> Told<'_> {
    match outcome {
        Ok(_) => (0, "", ""),
        Err(DdlFault::Syntax(number)) => (*number, "syntax", ""),
        Err(DdlFault::Refused(number, fault)) => refusal(*number, fault),
        Err(DdlFault::NoMemory) => (0, "no memory", ""),
    }
}

/// Files, each with what is told of it.
const FILES: &[(&[u8], Told<'static>)] = &[
    (b"", (0, "", "")),
    (
        b"\xef\xbb\xbfattribute A int;; -- a remark; and\n",
        (0, "", ""),
    ),
    (b"nothing", (1, "syntax", "")),
    (
        b"attribute A int; nothing; attribute A text",
        (2, "syntax", ""),
    ),
    (
        b"attribute A int; 'open; attribute B int",
        (2, "syntax", ""),
    ),
    (
        b"attribute A int; attribute A text; nothing",
        (2, "twice", "A"),
    ),
    (b"relation R (B text, B int)", (1, "twice", "B")),
    (b"attribute A int; fd A, A -> A", (2, "twice", "A")),
    (b";;attribute A int; ; fd A -> B", (2, "unknown", "B")),
    (
        b"attribute A int; object O (A) from R (B)",
        (2, "unknown", "R"),
    ),
    (
        b"attribute A int; relation R (B int); object O (A) from R (C)",
        (3, "unknown", "C"),
    ),
    (b"maximal (O)", (1, "unknown", "O")),
    (
        b"attribute A int; relation R (B text); object O (A) from R (B);",
        (3, "kinds", "A"),
    ),
    // of two checks that fail the first one counts
    (
        b"relation R (A int); relation R (B int, B int)",
        (2, "twice", "R"),
    ),
    (
        b"relation R (A int, B int, B int, A int)",
        (1, "twice", "B"),
    ),
    (
        b"attribute A int; relation R (A int); object O (X, A) from R (Y, A)",
        (3, "unknown", "X"),
    ),
    (
        b"attribute A int; relation R (A int); object O (A, A) from R (X, A)",
        (3, "unknown", "X"),
    ),
    (
        b"attribute A int; relation R (A int); object O (A, A) from R (A, X)",
        (3, "unknown", "X"),
    ),
    (
        b"attribute A int; attribute B text; relation R (A int, B int); object O (A, B) from R (B, A)",
        (4, "kinds", "B"),
    ),
    (
        b"attribute A int; relation R (A int); object O (A) from R (A); object O (A) from S (A)",
        (4, "twice", "O"),
    ),
    (b"attribute A int; fd A, A -> X", (2, "twice", "A")),
    (b"attribute A int; fd A, X, A -> A", (2, "unknown", "X")),
    (
        b"attribute A int; relation R (A int); object O (A) from R (A); maximal (O, O)",
        (4, "twice", "O"),
    ),
    (
        b"attribute A int; relation R (B int); object O (A) from R (B); fd A -> A; maximal (O);",
        (0, "", ""),
    ),
];

/// Whether this is told of the file.
fn is_told(alloc: Global, file: &[u8], want: &Told<'_>) -> bool {
    if file.len() > 65536 {
        return false;
    }
    told(&read(alloc, file)) == *want
}

#[test]
fn the_first_statement_at_fault_is_named(rt: HostRuntime) -> Result<(), Fail> {
    for (k, (file, want)) in FILES.iter().enumerate() {
        assert!(rt; is_told(rt.alloc(), file, want), "file {k}");
    }
    Ok(())
}

const FILE: &str =
    "attribute C text; attribute S text;attribute G int; relation RCSG(C text,T text,G int);
object CSG (G, C, S) from RCSG (G, C, T); object CS (S, C) from RCSG (C, T);
fd S, C -> G; maximal (CS, CSG); fd C->S -- the last one";

const SHOWN: &str = "\
attribute C text;
attribute S text;
attribute G int;
relation RCSG (C text, T text, G int);
object CSG (C, S, G) from RCSG (C, T, G);
object CS (C, S) from RCSG (T, C);
fd C, S -> G;
fd C -> S;
maximal (CSG, CS);
";

/// The shown schema of a file; nothing where the file is refused.
fn shown(alloc: Global, file: &[u8]) -> Result<List<u8>, NoMemory> {
    if file.len() > 65536 {
        return Ok(List::new(alloc));
    }
    match read(alloc, file) {
        Ok(schema) => show(alloc, &schema),
        Err(_) => Ok(List::new(alloc)),
    }
}

#[test]
fn names_are_shown_in_the_order_of_declaration(rt: HostRuntime) -> Result<(), Fail> {
    for file in [FILE, SHOWN] {
        let found = shown(rt.alloc(), file.as_bytes())?;
        assert!(rt; found.as_slice() == SHOWN.as_bytes());
    }
    Ok(())
}
