use std::alloc::Global;
use std::test::Fail;
use su_base::{AttrSet, List, NoMemory, Row, Str, Value};
use su_csv::CsvFault;
use su_ddl::{DdlFault, read};
use su_schema::Schema;
use su_show::{Refusal, ddl_fault, refusal};
use su_state::StateFault;
use su_steps::StepFault;

/// Courses, with a dependency of two attributes on a third one.
const COURSES: &str = "\
attribute C text; attribute S text; attribute G int;
relation R (C text, S text, G int);
object CSG (C, S, G) from R (C, S, G);
fd C, S -> G;
";

/// The schema of a short file; none where it is refused.
fn schema_of(alloc: Global, file: &str) -> Option<Schema> {
    if file.len() > 65536 {
        return None;
    }
    match read(alloc, file.as_bytes()) {
        Ok(schema) => Some(schema),
        Err(_) => None,
    }
}

/// A row of two texts and a number.
fn grade(alloc: Global, course: &str, student: &str, number: i64) -> Result<Row, NoMemory> {
    let mut row = List::new(alloc);
    row.push(Value::Text(Str::new(alloc, course)?))?;
    row.push(Value::Text(Str::new(alloc, student)?))?;
    row.push(Value::Int(number))?;
    Ok(row)
}

/// That the only dependency would be broken beside this row.
fn breaks(alloc: Global, course: &str, student: &str, number: i64) -> Result<Refusal, NoMemory> {
    let row = grade(alloc, course, student, number)?;
    Ok(Refusal::State(StateFault::Breaks {
        relation: 0,
        fd: 0,
        object: 0,
        row,
    }))
}

/// That the first and the last attribute are not covered for the variable.
fn not_covered(alloc: Global, variable: &str) -> Result<Refusal, NoMemory> {
    Ok(Refusal::Steps(StepFault::NotCovered {
        variable: Some(Str::new(alloc, variable)?),
        mentioned: AttrSet::empty().insert(2).insert(0),
    }))
}

/// That two texts are made equal.
fn equal_texts(alloc: Global, less: &str, greater: &str) -> Result<Refusal, NoMemory> {
    let less = Value::Text(Str::new(alloc, less)?);
    let greater = Value::Text(Str::new(alloc, greater)?);
    Ok(Refusal::Inconsistent { less, greater })
}

/// The refusal of a case, by its number.
fn case(alloc: Global, number: usize) -> Result<Refusal, NoMemory> {
    match number {
        0 => breaks(alloc, "CS101", "O'Hara", -9223372036854775808),
        1 => not_covered(alloc, "t"),
        2 => equal_texts(alloc, "B1", "the bank's"),
        _ => Ok(Refusal::Csv(
            0,
            CsvFault::NotInt {
                number: 18446744073709551615,
                column: 2,
            },
        )),
    }
}

/// The lines of the cases.
const LINES: [&str; 4] = [
    "refused: breaks C, S -> G with row ('CS101', 'O''Hara', -9223372036854775808)\n",
    "refused: no maximal object covers t: C G\n",
    "refused: inconsistent 'B1' and 'the bank''s'\n",
    "refused: record 18446744073709551615: column G is no number\n",
];

/// The line of a case.
fn told(alloc: Global, schema: &Schema, number: usize) -> Result<List<u8>, NoMemory> {
    let why = case(alloc, number)?;
    refusal(alloc, schema, &why)
}

#[test]
fn names_texts_and_numbers_of_a_refusal_are_told_in_full(rt: HostRuntime) -> Result<(), Fail> {
    let Some(schema) = schema_of(rt.alloc(), COURSES) else {
        return Err(Fail::from("no schema"));
    };
    for (number, want) in LINES.iter().enumerate() {
        let line = told(rt.alloc(), &schema, number)?;
        assert_eq!(rt; line.as_slice(), want.as_bytes(), "{want}");
    }
    Ok(())
}

#[test]
fn the_number_of_a_refused_definition_is_told_in_full(rt: HostRuntime) -> Result<(), Fail> {
    let line = ddl_fault(rt.alloc(), &DdlFault::Syntax(4294967295))?;
    let want = "schema refused: statement 4294967295: syntax\n";
    assert_eq!(rt; line.as_slice(), want.as_bytes());
    Ok(())
}
