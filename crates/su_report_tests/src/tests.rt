use std::alloc::Global;
use std::test::Fail;
use su_base::NoMemory;
use su_cases::schema_of;
use su_report::report_on;

/// A schema, whether it has a fault, and its report.
const CASES: &[(&str, bool, &str)] = &[
    (
        "attribute A int; relation R (X int); object O (A) from R (X)",
        false,
        "note key of O: A\nnote maximal object 0 is acyclic: O\n",
    ),
    (
        "attribute A int; attribute B int; relation R (X int, Y int); object O (A) from R (X); fd A -> B; relation S (X int, Y int)",
        true,
        "\
fault attribute B is of no object
  object NAME (B) from NAME (NAME);
fault relation S has no object
  object NAME (NAME, NAME) from S (X, Y);
fault column Y of R has no attribute
  object NAME (NAME) from R (Y);
fault fd A -> B lies in no object
  object NAME (A, B) from NAME (NAME, NAME);
note key of O: A
note maximal object 0 is acyclic: O
",
    ),
    // street, city and code
    (
        "attribute S text; attribute C text; attribute Z text; relation R (S text, C text, Z text); object ADDRESS (S, C, Z) from R (S, C, Z); fd S, C -> Z; fd Z -> C",
        false,
        "\
note key of ADDRESS: S, C
note key of ADDRESS: S, Z
note fd Z -> C breaks the form of Boyce and Codd in ADDRESS
  object NAME (C, Z) from NAME (NAME, NAME);
note maximal object 0 is acyclic: ADDRESS
",
    ),
    // students, courses and teachers have departments, which are one attribute
    (
        "attribute S text; attribute C text; attribute D text; relation R (X text, Y text); object SC (S, C) from R (X, Y); object SD (S, D) from R (X, Y); object CD (C, D) from R (X, Y); maximal (SC, SD, CD)",
        true,
        "\
note key of SC: S, C
note key of SD: S, D
note key of CD: C, D
fault maximal object 0 has a cycle: SC SD CD
  SC, SD meet in S
  SC, CD meet in C
  SD, CD meet in D
  acyclic without S
  acyclic without C
  acyclic without D
",
    ),
];

/// Whether the report on the schema of the text is this one.
fn is_told(alloc: Global, text: &str, fault: bool, lines: &str) -> Result<bool, NoMemory> {
    let Some(schema) = schema_of(alloc, text) else {
        return Ok(false);
    };
    let told = report_on(alloc, &schema)?;
    Ok(told.fault == fault && told.bytes.as_slice() == lines.as_bytes())
}

#[test]
fn reports_are_as_they_are_told(rt: HostRuntime) -> Result<(), Fail> {
    for (text, fault, lines) in CASES {
        let same = is_told(rt.alloc(), text, *fault, lines)?;
        assert!(rt; same, "{text}");
    }
    Ok(())
}
