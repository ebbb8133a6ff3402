ghost use Rattle.std.specs.Prelude.{◌≡◌, ◌<◌, ◌+◌, IfOk, length};
ghost use Rattle.su_rel.specs.Stored.{HaveWidth};
ghost use Rattle.su_index.specs.Tables.{table_at};

use std::alloc::Global;
use std::test::Fail;
use su_base::{AttrSet, List, NoMemory, Row, Str, Value};
use su_index::{Alike, Rows, Table};

fn row(alloc: Global, number: i64, text: &str) -> Result<Row, NoMemory>
    ensures { IfOk result (λ row. length row ≡ 2) }
{
    let mut row = List::new(alloc);
    row.push(Value::Int(number))?;
    row.push(Value::Text(Str::new(alloc, text)?))?;
    Ok(row)
}

/// Whether the row is put in, and was not there.
fn is_new(table: &mut Table, row: Row) -> bool {
    if row.len() != table.width() as usize {
        return false;
    }
    matches!(table.insert(row), Ok(true))
}

/// What is done with a row.
#[derive(Clone, Copy, PartialEq, Eq)]
enum Act {
    Put,
    Take,
}

/// What is done, with which number and text, and whether that changes the table.
type Step = (Act, i64, &'static str, bool);

const STEPS: &[Step] = &[
    (Act::Put, 7, "a", true),
    (Act::Put, 3, "b", true),
    (Act::Put, 7, "b", true),
    (Act::Put, 7, "a", false),
    (Act::Put, 7, "", true),
    (Act::Put, -7, "a", true),
    (Act::Take, 3, "b", true),
    (Act::Take, 3, "b", false),
    (Act::Take, 3, "a", false),
];

fn changes(alloc: Global, table: &mut Table, step: &Step) -> Result<bool, NoMemory> {
    let (act, number, text, _) = *step;
    let row = row(alloc, number, text)?;
    match act {
        Act::Put => Ok(is_new(table, row)),
        Act::Take => Ok(table.remove(&row)),
    }
}

/// The number of the first step that does otherwise, or how many there are.
fn first_otherwise(alloc: Global, table: &mut Table) -> Result<usize, NoMemory> {
    for (k, step) in STEPS.iter().enumerate() {
        if changes(alloc, table, step)? != step.3 {
            return Ok(k);
        }
    }
    Ok(STEPS.len())
}

/// In how many rows the number stands.
fn count(table: &Table, number: i64) -> usize {
    if table.width() == 0 {
        return 0;
    }
    table.matching(0, &Value::Int(number))
}

/// In how many rows the text stands, in the column.
fn count_text(alloc: Global, table: &Table, column: u8, text: &str) -> Result<usize, NoMemory> {
    if column >= table.width() {
        return Ok(0);
    }
    Ok(table.matching(column, &Value::Text(Str::new(alloc, text)?)))
}

/// The place of a row with the number.
fn place(table: &Table, number: i64, k: usize) -> Option<usize> {
    let number = Value::Int(number);
    if table.width() == 0 || k >= table.matching(0, &number) {
        return None;
    }
    Some(table.matched(0, &number, k))
}

#[test]
fn rows_are_found_by_their_values(rt: HostRuntime) -> Result<(), Fail> {
    let mut table = Table::new(rt.alloc(), 2)?;
    assert_eq!(rt; first_otherwise(rt.alloc(), &mut table)?, STEPS.len());
    // the last row went to the place of the one that was taken out
    assert!(rt; (count(&table, 7), count(&table, -7), count(&table, 3)) == (3, 1, 0));
    assert!(rt; (place(&table, 7, 0), place(&table, 7, 2)) == (Some(0), Some(3)));
    assert!(rt; place(&table, -7, 0) == Some(1));
    Ok(())
}

/// 100,000 rows, of which 2,000 are different: the first half with a and the later one with b.
fn rows(alloc: Global) -> Result<List<Row>, NoMemory>
    ensures { IfOk result (HaveWidth 2) }
{
    let mut rows = List::new(alloc);
    for number in 0..100000 {
        rows.push(row(alloc, number % 1000, if number < 50000 { "a" } else { "b" })?)?;
    }
    Ok(rows)
}

fn filled(alloc: Global) -> Result<Table, NoMemory> {
    let mut table = Table::new(alloc, 2)?;
    let _new = table.insert_all(rows(alloc)?)?;
    Ok(table)
}

/// Takes the rows of the numbers from 0 on with a out.
fn take_below(alloc: Global, table: &mut Table, end: i64) -> Result<(), NoMemory> {
    for number in 0..end {
        let _there = table.remove(&row(alloc, number, "a")?);
    }
    Ok(())
}

/// Keeps the rows from this place on, if there are so many.
fn keep_from(alloc: Global, table: &mut Table, first: usize) -> Result<(), NoMemory> {
    let mut kept = List::new(alloc);
    for place in 0..table.len() {
        kept.push(place >= first)?;
    }
    if kept.len() == table.len() {
        table.keep(kept.as_slice())?;
    }
    Ok(())
}

#[test]
fn many_rows_go_in_at_once_and_out_again(rt: HostRuntime) -> Result<(), Fail> {
    let mut table = filled(rt.alloc())?;
    assert!(rt; (table.len(), place(&table, 17, 1)) == (2000, Some(1017)));
    take_below(rt.alloc(), &mut table, 500)?;
    assert_eq!(rt; count_text(rt.alloc(), &table, 1, "a")?, 500);
    keep_from(rt.alloc(), &mut table, 1000)?;
    assert_eq!(rt; count_text(rt.alloc(), &table, 1, "a")?, 0);
    assert!(rt; (table.len(), count(&table, 499)) == (500, 1));
    Ok(())
}

/// Puts 10,000 rows in one by one, the first half with a and the later one with b.
fn put_many(alloc: Global, table: &mut Table) -> Result<(), NoMemory> {
    for number in 0..10000 {
        let text = if number < 5000 { "a" } else { "b" };
        let _new = is_new(table, row(alloc, number % 5000, text)?);
    }
    Ok(())
}

#[test]
fn rows_of_many_chunks_go_in_and_out_one_by_one(rt: HostRuntime) -> Result<(), Fail> {
    let mut table = Table::new(rt.alloc(), 2)?;
    put_many(rt.alloc(), &mut table)?;
    take_below(rt.alloc(), &mut table, 3000)?;
    assert_eq!(rt; count_text(rt.alloc(), &table, 1, "b")?, 5000);
    assert!(rt; (table.len(), count(&table, 2999), count(&table, 3000)) == (7000, 1, 2));
    assert!(rt; (count(&table, 4999), count(&table, 5000)) == (2, 0));
    Ok(())
}

/// What is told of the row of 1 and a by both values.
fn told(alloc: Global, table: &Table) -> Result<Option<Alike>, NoMemory> {
    let row = row(alloc, 1, "a")?;
    if row.len() != table.width() as usize {
        return Ok(None);
    }
    Ok(Some(table.alike(AttrSet::empty().insert(0).insert(1), &row)))
}

/// What is told of the row of 1 and a, once the row of the number and the text is put in.
fn told_beside(
    alloc: Global,
    table: &mut Table,
    number: i64,
    text: &str,
) -> Result<Option<Alike>, NoMemory> {
    let _new = is_new(table, row(alloc, number, text)?);
    told(alloc, table)
}

#[test]
fn a_noted_row_is_found_by_all_its_values(rt: HostRuntime) -> Result<(), Fail> {
    let alloc = rt.alloc();
    let mut table = Table::new(alloc, 2)?;
    let _new = is_new(&mut table, row(alloc, 1, "b")?);
    table.note(AttrSet::empty().insert(0).insert(1))?;
    assert!(rt; matches!(told(alloc, &table)?, Some(Alike::Unknown)));
    assert!(rt;
        matches!(
            told_beside(alloc, &mut table, 2, "a")?,
            Some(Alike::Nowhere)
        )
    );
    assert!(rt;
        matches!(
            told_beside(alloc, &mut table, 1, "a")?,
            Some(Alike::MaybeAt(2))
        )
    );
    Ok(())
}

/// Through the bound: a fetch counts one, and the tables stay.
fn fetch_first<R: Rows>(rows: &mut R)
    requires tables { 0 < length (R.tables rows.old) }
    requires some { 0 < length (table_at (R.tables rows.old) 0).rows }
    ensures tables { R.tables rows.new ≡ R.tables rows.old }
    ensures counted { R.fetches rows.new ≡ R.fetches rows.old + 1 }
{
    let _row = rows.fetch(0, 0);
}
