//! The tables of an explanation: a term's rows, and where its columns are.
ghost use Rattle.std.specs.Prelude.{◌≡◌, ◌-◌, ◌||◌, not, nat_lt, drop, map, [], IfOk, OnOk};
ghost use Rattle.std.specs.List.{list_any};
ghost use Rattle.std.specs.Str.{bytes_eq};
ghost use Rattle.su_draw.specs.inside.Lay.{front_from, name_added, names_with, room_of as room, room_from, column_of as column_for, columns_of as columns_for, column_from, end_from, is_arrow as arrow_at, lane_from, table_on, table_of, row_x, row_mark};

use crate::cells::{Cell, before, cells_of, classes_of, copied, mark_of};
use crate::cutting::shown_width;
use crate::measures::{WIDE, word_at};
use crate::terms::{fold_behind, is_row, lines_behind};
use crate::things::{behind, what_in_fold};
use std::alloc::Global;
use su_base::{List, NoMemory};
use su_explained::{Line, are_same};

/// A column: its attribute, and how wide it is.
#[derive(Drop)]
pub(crate) struct Column {
    pub(crate) name: List<u8>,
    pub(crate) width: u32,
}

/// The table of the term that begins with a line: where the variables and the objects of its rows begin,
/// where the first column does, its columns and where they end, where sources begin, and the symbols that
/// stand in several cells.
pub(crate) struct Table {
    pub(crate) term: usize,
    pub(crate) variable: u32,
    pub(crate) object: u32,
    pub(crate) first: u32,
    pub(crate) columns: List<Column>,
    pub(crate) right: u32,
    pub(crate) sources: u32,
    pub(crate) classes: List<List<u8>>,
}

/// Not derived, so that it is a single call wherever a table goes out of scope.
impl Drop for Table {
    fn drop(self) {
        let Table {
            term: _,
            variable: _,
            object: _,
            first: _,
            columns: _,
            right: _,
            sources: _,
            classes: _,
        } = self;
    }
}

/// How wide a word of the rows is, at most, with a gap.
fn front_width(lines: &[Line], word: usize) -> u32
    ensures { result ≡ front_from 0 lines.now word }
{
    let mut width: u32 = 0;
    for line in lines {
        if !is_row(line.kind) {
            return width;
        }
        let own = shown_width(word_at(line.words.as_slice(), word)).saturating_add(2 * WIDE);
        width = width.max(own);
    }
    width
}

/// Whether the name is one of these.
fn is_named(names: &[List<u8>], name: &[u8]) -> bool
    ensures { result ≡ list_any (λ n. bytes_eq n name.now) names.now }
{
    names.iter().any(|known| are_same(known.as_slice(), name))
}

/// Adds the name, if it isn't there.
fn add_name(alloc: Global, names: &mut List<List<u8>>, name: &[u8]) -> Result<(), NoMemory>
    ensures { OnOk result (names.new ≡ name_added names.old name.now) }
{
    if is_named(names.as_slice(), name) {
        return Ok(());
    }
    names.push(copied(alloc, name)?)?;
    Ok(())
}

/// The attributes of the cells, each once.
fn names_of(alloc: Global, cells: &[Cell]) -> Result<List<List<u8>>, NoMemory>
    ensures { IfOk result (λ names. names ≡ names_with [] cells.now) }
{
    let mut names = List::new(alloc);
    for cell in cells {
        add_name(alloc, &mut names, cell.name.as_slice())?;
    }
    Ok(names)
}

/// The room of a cell: for its symbol and a mark, and for the attribute above it.
fn room_of(cell: &Cell) -> u32
    ensures { result ≡ room cell.now }
{
    let symbol = shown_width(cell.symbol.as_slice()).saturating_add(2 * WIDE);
    shown_width(cell.name.as_slice())
        .max(symbol)
        .saturating_add(2 * WIDE)
}

/// The room of the widest cell of an attribute.
fn room_for(cells: &[Cell], name: &[u8]) -> u32
    ensures { result ≡ room_from 0 cells.now name.now }
{
    let mut width: u32 = 0;
    for cell in cells {
        if are_same(cell.name.as_slice(), name) {
            width = width.max(room_of(cell));
        }
    }
    width
}

/// A column for each attribute of the cells.
fn columns_of(alloc: Global, cells: &[Cell]) -> Result<List<Column>, NoMemory>
    ensures { IfOk result (λ columns. columns ≡ columns_for cells.now) }
{
    let names = names_of(alloc, cells)?;
    let mut columns = List::new(alloc);
    for name in names.into_vec() {
        let width = room_for(cells, name.as_slice());
        columns.push(Column { name, width })?;
    }
    Ok(columns)
}

/// Where the column of an attribute begins; behind all columns, where it has none.
pub(crate) fn column_at(first: u32, columns: &[Column], name: &[u8]) -> u32
    ensures { result ≡ column_from first columns.now name.now }
{
    let mut left = first;
    for column in columns {
        if are_same(column.name.as_slice(), name) {
            return left;
        }
        left = left.saturating_add(column.width);
    }
    left
}

/// Where the columns end.
fn end_of(first: u32, columns: &[Column]) -> u32
    ensures { result ≡ end_from first columns.now }
{
    let mut left = first;
    for column in columns {
        left = left.saturating_add(column.width);
    }
    left
}

/// Whether the word of a fold is an arrow.
fn is_arrow(k: usize, word: &[u8]) -> bool
    ensures { result ≡ arrow_at k word.now }
{
    what_in_fold(k, word).is_some()
}

/// Where the lane behind those of these words of a fold is.
pub(crate) fn lane_behind(first: u32, words: &[List<u8>]) -> u32
    ensures { result ≡ lane_from first 0 words.now }
{
    let mut lane = first;
    for (k, word) in words.iter().enumerate() {
        if is_arrow(k, word.as_slice()) {
            lane = lane.saturating_add(18);
        }
    }
    lane
}

impl Table {
    /// The table of a term whose rows the lines begin with.
    fn on(alloc: Global, left: u32, term: usize, rows: &[Line]) -> Result<Table, NoMemory>
        ensures { IfOk result (λ table. table ≡ table_on left term rows.now) }
    {
        let cells = cells_of(alloc, rows)?;
        let variable = left.saturating_add(front_width(rows, 3));
        let object = variable.saturating_add(front_width(rows, 4));
        let first = object.saturating_add(front_width(rows, 5));
        let columns = columns_of(alloc, cells.as_slice())?;
        let classes = classes_of(alloc, cells.as_slice())?;
        let right = end_of(first, columns.as_slice());
        let sources = lane_behind(right.saturating_add(24), fold_behind(rows)).saturating_add(12);
        Ok(Table {
            term,
            variable,
            object,
            first,
            columns,
            right,
            sources,
            classes,
        })
    }

    /// The table of the term that begins with this line.
    pub(crate) fn of(
        alloc: Global,
        left: u32,
        lines: &[Line],
        term: usize,
    ) -> Result<Table, NoMemory>
        ensures { IfOk result (λ table. table ≡ table_of left lines.now term) }
    {
        Table::on(alloc, left, term, lines_behind(lines, term))
    }

    /// Where a word of a row begins.
    pub(crate) fn row_x(&self, left: u32, k: usize, word: &[u8]) -> u32
        ensures { result ≡ row_x left self.now k word.now }
    {
        if k < 4 {
            return left;
        }
        if k == 4 {
            return self.variable;
        }
        if k == 5 {
            return self.object;
        }
        column_at(self.first, self.columns.as_slice(), before(word))
    }

    /// The mark of a word of a row.
    pub(crate) fn row_mark(&self, k: usize, word: &[u8]) -> usize
        ensures { result ≡ row_mark self.now k word.now }
    {
        if k < 6 {
            return 0;
        }
        mark_of(self.classes.as_slice(), behind(word))
    }
}
