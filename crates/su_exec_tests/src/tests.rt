ghost use Rattle.std.specs.Prelude.{◌≡◌, ◌<◌, ℕ, IsTrue, All, Contains, length};
ghost use Rattle.std.specs.Bool.{OnTrue};
ghost use Rattle.su_tableau.specs.declared.symbols.Sym.TheVariants.{Var};
ghost use Rattle.su_exec.specs.Tasks.{FitsTables, HasSources, IsTask, Occurs};

use std::alloc::Global;
use std::marker::Brand;
use std::process::Abort;
use std::sync::ledger::{Blank, Ledger};
use std::test::Fail;
use su_base::{List, Row, Str, Value};
use su_exec::{Compared, ExecFault, Source, Task, TaskRow, components, execute};
use su_index::{Table, TableRows};
use su_plain::{PlainRows, plain_tables};
use su_tableau::Sym;
use su_where::Op;

/// A value: a whole number, or a text.
fn value(alloc: Global, word: &str) -> Result<Value, Fail> {
    match word.parse::<i64>() {
        Ok(number) => Ok(Value::Int(number)),
        Err(_) => Ok(Value::Text(Str::new(alloc, word)?)),
    }
}

/// A table from rows of words, parted by `;` and spaces.
fn table(rt: &impl Abort, alloc: Global, width: u8, rows: &str) -> Result<Table, Fail> {
    let mut table = Table::new(alloc, width)?;
    for line in rows.split(';') {
        let mut row = List::new(alloc);
        for word in line.split_ascii_whitespace() {
            row.push(value(alloc, word)?)?;
        }
        if row.len() > 0 {
            put(rt, &mut table, row)?;
        }
    }
    Ok(table)
}

fn put(rt: &impl Abort, table: &mut Table, row: Row) -> Result<(), Fail> {
    assert_eq!(rt; row.len(), table.width() as usize);
    match table.insert(row) {
        Ok(_) => Ok(()),
        Err((_, refused)) => Err(Fail::from(refused)),
    }
}

/// A symbol: a capital letter is a variable, all else a constant.
fn symbol(alloc: Global, word: &str) -> Result<Sym, Fail> {
    let bytes = word.as_bytes();
    if bytes.len() == 1 && bytes[0].is_ascii_uppercase() {
        return Ok(Sym::Var((bytes[0] - b'A') as u32));
    }
    Ok(Sym::Const(value(alloc, word)?))
}

fn symbols(alloc: Global, words: &str) -> Result<List<Sym>, Fail> {
    let mut list = List::new(alloc);
    for word in words.split_ascii_whitespace() {
        list.push(symbol(alloc, word)?)?;
    }
    Ok(list)
}

/// Sources: for each a table's number and columns, digits without spaces.
fn sources(alloc: Global, words: &str) -> Result<List<Source>, Fail> {
    let mut list = List::new(alloc);
    for word in words.split_ascii_whitespace() {
        let mut columns = List::new(alloc);
        for digit in word.as_bytes().iter().skip(1) {
            columns.push(digit.saturating_sub(b'0'))?;
        }
        let relation = word
            .as_bytes()
            .first()
            .copied()
            .unwrap_or(b'0')
            .saturating_sub(b'0');
        list.push(Source { relation, columns })?;
    }
    Ok(list)
}

fn operator(word: &str) -> Op {
    match word {
        "<" => Op::Less,
        "<=" => Op::LessEqual,
        ">" => Op::Greater,
        ">=" => Op::GreaterEqual,
        "!=" => Op::NotEqual,
        _ => Op::Equal,
    }
}

/// A row: its cells, and its sources.
fn row(alloc: Global, cells: &str, from: &str) -> Result<TaskRow, Fail> {
    let cells = symbols(alloc, cells)?;
    let sources = sources(alloc, from)?;
    Ok(TaskRow { cells, sources })
}

/// Rows as `cells : sources`, parted by `;`.
fn rows(alloc: Global, words: &str) -> Result<List<TaskRow>, Fail> {
    let mut list = List::new(alloc);
    for line in words.split(';') {
        if let Some((cells, from)) = line.split_once(':') {
            list.push(row(alloc, cells, from)?)?;
        }
    }
    Ok(list)
}

/// A comparison, of its three words.
fn comparison(alloc: Global, left: &str, op: &str, right: &str) -> Result<Compared, Fail> {
    let left = symbol(alloc, left)?;
    let right = symbol(alloc, right)?;
    Ok(Compared {
        left,
        op: operator(op),
        right,
    })
}

/// Comparisons, parted by `;`.
fn comparisons(alloc: Global, words: &str) -> Result<List<Compared>, Fail> {
    let mut list = List::new(alloc);
    for line in words.split(';') {
        let mut words = line.split_ascii_whitespace();
        if let (Some(left), Some(op), Some(right)) = (words.next(), words.next(), words.next()) {
            list.push(comparison(alloc, left, op, right)?)?;
        }
    }
    Ok(list)
}

/// A task of rows, outputs and comparisons.
fn task(alloc: Global, asked: &str, outputs: &str, compared: &str) -> Result<Task, Fail> {
    let rows = rows(alloc, asked)?;
    let outputs = symbols(alloc, outputs)?;
    let comparisons = comparisons(alloc, compared)?;
    Ok(Task {
        rows,
        outputs,
        comparisons,
    })
}

/// Puts the value last, after a space unless it is the first.
fn show(alloc: Global, text: &mut String, k: usize, value: &Value) -> Result<(), Fail> {
    if k > 0 {
        text.push_str(" ")?;
    }
    match value {
        Value::Int(number) => text.push_str(&format!(in alloc; "{number}")?)?,
        Value::Text(word) => text.push_str(word.as_str())?,
    }
    Ok(())
}

/// The rows of an answer, as words.
fn words(alloc: Global, rows: &List<Row>) -> Result<String, Fail> {
    let mut text = String::new(alloc);
    for (i, row) in rows.as_slice().iter().enumerate() {
        if i > 0 {
            text.push_str("; ")?;
        }
        for (k, value) in row.as_slice().iter().enumerate() {
            show(alloc, &mut text, k, value)?;
        }
    }
    Ok(text)
}

/// Whether each column is below the width.
fn columns_fit(width: u8, columns: &[u8]) -> bool
    ensures { OnTrue result (All (λ column. column < width) columns.now) }
{
    for column in columns {
        if *column >= width {
            return false;
        }
    }
    true
}

/// Whether the source names a table, and has one column of it per cell.
fn source_fits(tables: &[Table], cells: usize, source: &Source) -> bool
    ensures { OnTrue result (FitsTables tables.now cells source.now) }
{
    let relation = source.relation as usize;
    if relation >= tables.len() {
        return false;
    }
    if source.columns.len() != cells {
        return false;
    }
    columns_fit(tables[relation].width(), source.columns.as_slice())
}

/// Whether each source of a row with so many cells fits the tables.
fn sources_fit(tables: &[Table], cells: usize, sources: &[Source]) -> bool
    ensures { OnTrue result (All (FitsTables tables.now cells) sources.now) }
{
    for source in sources {
        if !source_fits(tables, cells, source) {
            return false;
        }
    }
    true
}

/// Whether the sources of each row fit the tables.
fn rows_fit(tables: &[Table], rows: &[TaskRow]) -> bool
    ensures { OnTrue result (All (HasSources tables.now) rows.now) }
{
    for row in rows {
        if !sources_fit(tables, row.cells.len(), row.sources.as_slice()) {
            return false;
        }
    }
    true
}

/// Whether the cells have the variable.
fn has_variable(cells: &[Sym], k: u32) -> bool
    ensures { IsTrue result → Contains cells.now (Var k) }
{
    for cell in cells {
        if let Sym::Var(l) = cell {
            if *l == k {
                return true;
            }
        }
    }
    false
}

/// Whether some row has the variable.
fn stands_in_some(task: &Task, k: u32) -> bool
    ensures { OnTrue result (Occurs task.now k) }
{
    for row in task.rows.as_slice() {
        if has_variable(row.cells.as_slice(), k) {
            return true;
        }
    }
    false
}

/// Whether the symbol is a constant, or a variable of some row.
fn occurs(task: &Task, symbol: &Sym) -> bool
    ensures { OnTrue result ((k : ℕ) → symbol.now ≡ Var k → Occurs task.now k) }
{
    match symbol {
        Sym::Var(k) => stands_in_some(task, *k),
        Sym::Const(_) => true,
    }
}

/// Whether each of the symbols is a constant, or a variable of some row.
fn all_occur(task: &Task, symbols: &[Sym]) -> bool
    ensures { OnTrue result (All (λ symbol. (k : ℕ) → symbol ≡ Var k → Occurs task.now k) symbols.now) }
{
    for symbol in symbols {
        if !occurs(task, symbol) {
            return false;
        }
    }
    true
}

/// Whether both sides of the comparison are constants, or variables of some row.
fn sides_occur(task: &Task, compared: &Compared) -> bool
    ensures { OnTrue result (((k : ℕ) → compared.now.left ≡ Var k → Occurs task.now k) × ((k : ℕ) → compared.now.right ≡ Var k → Occurs task.now k)) }
{
    if !occurs(task, &compared.left) {
        return false;
    }
    occurs(task, &compared.right)
}

/// Whether the sides of each comparison are constants, or variables of some row.
fn compared_occur(task: &Task, comparisons: &[Compared]) -> bool
    ensures { OnTrue result (All (λ c. ((k : ℕ) → c.left ≡ Var k → Occurs task.now k) × ((k : ℕ) → c.right ≡ Var k → Occurs task.now k)) comparisons.now) }
{
    for compared in comparisons {
        if !sides_occur(task, compared) {
            return false;
        }
    }
    true
}

/// Whether the task is one over the tables.
fn fits(tables: &[Table], task: &Task) -> bool
    ensures { OnTrue result (IsTask tables.now task.now) }
{
    if task.rows.len() > 64 {
        return false;
    }
    if !rows_fit(tables, task.rows.as_slice()) {
        return false;
    }
    if !all_occur(task, task.outputs.as_slice()) {
        return false;
    }
    compared_occur(task, task.comparisons.as_slice())
}

fn answer_of<L: Ledger>(
    alloc: Global,
    tables: &[Table],
    task: &Task,
    cap: u64,
    blank: Blank,
) -> Result<List<Row>, ExecFault>
    requires task { IsTask tables.now task.now }
    requires name { blank.name ≡ L.name }
    requires parts { blank.parts ≡ L.parts }
    requires some { 0 < blank.parts }
{
    let mut rows = TableRows::<L>::new(tables, blank);
    execute(alloc, task, &mut rows, cap)
}

/// The answer to the task over copies of the tables' rows.
fn plain_answer_of<L: Ledger>(
    alloc: Global,
    tables: &[Table],
    task: &Task,
    cap: u64,
    blank: Blank,
) -> Result<List<Row>, ExecFault>
    requires task { IsTask tables.now task.now }
    requires name { blank.name ≡ L.name }
    requires parts { blank.parts ≡ L.parts }
    requires some { 0 < blank.parts }
{
    let plain = plain_tables(alloc, tables)?;
    let mut rows = PlainRows::<L>::new(plain.as_slice(), blank);
    execute(alloc, task, &mut rows, cap)
}

/// Which store the rows come from.
#[derive(Clone, Copy)]
enum Store {
    Tables,
    Plain,
}

/// The answer to the task, which is to be one over the tables.
fn answer(
    rt: &impl Abort,
    alloc: Global,
    store: Store,
    tables: &[Table],
    task: &Task,
    cap: u64,
) -> Result<List<Row>, ExecFault> {
    assert!(rt; fits(tables, task));
    match store {
        Store::Tables => answer_of::<Brand>(alloc, tables, task, cap, Blank::new(1)),
        Store::Plain => plain_answer_of::<Brand>(alloc, tables, task, cap, Blank::new(1)),
    }
}

/// The answer to the task, as words; that there are more answers than the cap.
fn told(
    rt: &impl Abort,
    alloc: Global,
    store: Store,
    tables: &[Table],
    task: &Task,
    cap: u64,
) -> Result<String, Fail> {
    match answer(rt, alloc, store, tables, task, cap) {
        Ok(found) => words(alloc, &found),
        Err(ExecFault::More) => Ok(format!(in alloc; "more")?),
        Err(fault) => Err(Fail::from(fault)),
    }
}

/// Bank and account, account and balance, account and customer, bank and loan, loan and customer.
fn bank(rt: &impl Abort, alloc: Global) -> Result<Vec<Table>, Fail> {
    let mut tables = Vec::new(alloc);
    for rows in [
        "B1 1; B2 2",
        "1 100; 2 250",
        "1 Jones; 1 Smith; 2 Smith",
        "B1 7; B3 8",
        "7 Smith; 8 Jones",
    ] {
        tables.push(table(rt, alloc, 2, rows)?)?;
    }
    Ok(tables)
}

/// Rows with their sources, outputs, comparisons, a cap, and the answers or that there are more.
const JOINS: &[(&str, &str, &str, u64, &str)] = &[
    // constants and joins
    ("B A : 001; A Jones : 201", "B", "", 9, "B1"),
    ("B L : 301; L Jones : 401", "B", "", 9, "B3"),
    (
        "B A : 001; A C : 201",
        "C B",
        "",
        9,
        "Jones B1; Smith B1; Smith B2",
    ),
    // several sources, and a column taken from the other side
    ("C : 21 41", "C", "", 9, "Jones; Smith"),
    ("X Y : 001 110", "X Y", "", 9, "100 1; 250 2; B1 1; B2 2"),
    // comparisons within a row, between rows, with a constant
    ("A X : 101; B Y : 101", "A B", "X < Y", 9, "1 2"),
    // comparisons that exclude one another, and that leave what is equal
    ("A X : 101; B Y : 101", "A B", "X < Y; Y < X", 9, ""),
    (
        "A X : 101; B Y : 101",
        "A B",
        "X <= Y; Y <= X",
        9,
        "1 1; 2 2",
    ),
    ("A X : 101", "A", "X > 100", 9, "2"),
    ("A X : 101", "A", "X >= 100; A != 2", 9, "1"),
    ("A X : 101", "A", "1 < 2", 9, "1; 2"),
    ("A X : 101", "A", "2 < 1", 9, ""),
    // one variable twice in a row
    ("A A : 101", "A", "", 9, ""),
    ("A A : 110 001 211", "A", "", 9, "Jones; Smith"),
    // rows that share nothing: all pairs, or only asked for
    ("A : 10; B : 30", "A B", "", 9, "1 B1; 1 B3; 2 B1; 2 B3"),
    ("A : 10; B : 30; C Jones : 401", "A", "", 9, "1; 2"),
    ("A : 10; B : 30; C Robin : 401", "A", "", 9, ""),
    // outputs: twice, constants, none
    ("A : 10", "A A 7", "", 9, "1 1 7; 2 2 7"),
    ("A : 10", "", "", 9, ""),
    ("B 9 : 001", "", "", 9, ""),
    ("", "5", "", 9, "5"),
    // ears: of which nothing more is asked, an output, a comparison; on the way to another; of two columns
    ("B A : 001; A C : 201; L C : 401", "B", "", 9, "B1; B2"),
    (
        "B A : 001; A X : 101; A C : 201",
        "C",
        "X > 100",
        9,
        "Smith",
    ),
    ("A C : 201; L C : 401; A X : 101", "L", "X > 100", 9, "7"),
    ("B A : 001; A X : 101; C Y : 110", "B", "X < Y", 9, ""),
    ("B A : 001; A C : 201; C D : 201", "B", "", 9, ""),
    (
        "A C : 201; A C : 201",
        "A C",
        "",
        9,
        "1 Jones; 1 Smith; 2 Smith",
    ),
    ("A C : 201; A C : 401", "A", "", 9, ""),
    // a triangle
    (
        "A B : 001; B C : 201; C D : 410",
        "A C D",
        "",
        9,
        "B1 Jones 8; B1 Smith 7; B2 Smith 7",
    ),
    // the cap: as many answers as asked for, and one more
    ("A : 10", "A", "", 2, "1; 2"),
    ("A : 10", "A", "", 1, "more"),
    ("A : 10; B : 30", "A B", "", 4, "1 B1; 1 B3; 2 B1; 2 B3"),
    ("A : 10; B : 30", "A B", "", 3, "more"),
    ("A : 10; B : 30; C Robin : 401", "A B", "", 3, ""),
    ("A : 10; B : 30; C Jones : 401", "A B", "", 3, "more"),
    ("A X : 101; B Y : 101", "A B", "X < Y", 0, "more"),
    ("", "5", "", 1, "5"),
    ("", "5", "", 0, "more"),
];

/// Asserts the answers, over either store.
fn joins(
    rt: &impl Abort,
    alloc: Global,
    tables: &[Table],
    case: (&str, &str, &str, u64, &str),
) -> Result<(), Fail> {
    let (rows, outputs, comparisons, cap, wanted) = case;
    let asked = task(alloc, rows, outputs, comparisons)?;
    for store in [Store::Tables, Store::Plain] {
        let found = told(rt, alloc, store, tables, &asked, cap)?;
        assert_eq!(rt; found.as_str(), wanted, "{rows}");
    }
    Ok(())
}

#[test]
fn rows_are_joined_over_their_sources(rt: HostRuntime) -> Result<(), Fail> {
    let alloc = rt.alloc();
    let tables = bank(&rt, alloc)?;
    for case in JOINS {
        joins(&rt, alloc, tables.as_slice(), *case)?;
    }
    Ok(())
}

/// How many rows are fetched for the task from copies of the tables' rows.
fn fetches_of<L: Ledger>(
    alloc: Global,
    tables: &[Table],
    task: &Task,
    blank: Blank,
) -> Result<u64, ExecFault>
    requires task { IsTask tables.now task.now }
    requires name { blank.name ≡ L.name }
    requires parts { blank.parts ≡ L.parts }
    requires some { 0 < blank.parts }
{
    let plain = plain_tables(alloc, tables)?;
    let mut rows = PlainRows::<L>::new(plain.as_slice(), blank);
    execute(alloc, task, &mut rows, 9)?;
    Ok(rows.fetched())
}

/// How many rows are fetched for the task, which is to be one over the tables.
fn fetches(
    rt: &impl Abort,
    alloc: Global,
    tables: &[Table],
    task: &Task,
) -> Result<u64, ExecFault> {
    assert!(rt; fits(tables, task));
    fetches_of::<Brand>(alloc, tables, task, Blank::new(1))
}

/// Whether the bank of Jones is found with so many fetches or fewer.
fn finds_with(rt: &impl Abort, alloc: Global, most: u64) -> Result<bool, Fail> {
    let tables = bank(rt, alloc)?;
    let asked = task(alloc, "B A : 001; A Jones : 201", "B", "")?;
    match fetches(rt, alloc, tables.as_slice(), &asked) {
        Ok(count) => Ok(count <= most),
        Err(fault) => Err(Fail::from(fault)),
    }
}

#[test]
fn the_bank_of_jones_takes_three_fetches_at_most(rt: HostRuntime) -> Result<(), Fail> {
    // two rows of banks, among which no constant chooses, and the one account of Jones
    let found = finds_with(&rt, rt.alloc(), 3)?;
    assert!(rt; found);
    Ok(())
}

/// The rows of each component, as words.
fn shown(alloc: Global, parts: &List<List<u8>>) -> Result<String, Fail> {
    let mut text = String::new(alloc);
    for (p, part) in parts.as_slice().iter().enumerate() {
        if p > 0 {
            text.push_str("; ")?;
        }
        for (k, row) in part.as_slice().iter().enumerate() {
            show(alloc, &mut text, k, &Value::Int(*row as i64))?;
        }
    }
    Ok(text)
}

/// The components of a task that is given as words.
fn parts(rt: &impl Abort, alloc: Global, rows: &str, compared: &str) -> Result<String, Fail> {
    let asked = task(alloc, rows, "", compared)?;
    assert!(rt; asked.rows.len() <= 64);
    let parts = components(alloc, &asked)?;
    shown(alloc, &parts)
}

/// Rows, comparisons, and the numbers of the rows of each component.
const COMPONENTS: &[(&str, &str, &str)] = &[
    ("A : 00; B : 10; C : 20", "", "0; 1; 2"),
    ("A B : 001; C D : 101; B C : 201", "", "0 1 2"),
    ("A : 00; B : 10; C : 20", "A < C", "0 2; 1"),
    ("A : 00; B : 10; C : 20", "B < 5", "0; 1; 2"),
    (
        "A : 00; B : 10; C : 20; A D : 001; B D : 001",
        "C = C",
        "0 1 3 4; 2",
    ),
    ("", "", ""),
];

#[test]
fn rows_that_hang_together_are_one_component(rt: HostRuntime) -> Result<(), Fail> {
    for (rows, comparisons, wanted) in COMPONENTS {
        let found = parts(&rt, rt.alloc(), rows, comparisons)?;
        assert_eq!(rt; found.as_str(), *wanted);
    }
    Ok(())
}
