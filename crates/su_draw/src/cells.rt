//! The cells of a term, and their classes: the cells that have one symbol.
ghost use Rattle.std.specs.Prelude.{◌≡◌, ◌≤◌, ◌+◌, ◌++◌, length, drop, map, IfOk, OnOk};
ghost use Rattle.su_draw.specs.Things.{name_of};
ghost use Rattle.su_draw.specs.inside.Lay.{cell_of, row_cells, cells_from, count_from, classes_from, mark_from};

use crate::terms::{is_row, is_term};
use crate::things::behind;
use std::alloc::Global;
use su_base::{List, NoMemory};
use su_explained::{Line, are_same};

/// A cell of a row: its attribute and its symbol.
#[derive(Drop)]
pub(crate) struct Cell {
    pub(crate) name: List<u8>,
    pub(crate) symbol: List<u8>,
}

/// What stands before the first sign of equality; the whole word, if it has none.
pub(crate) fn before(word: &[u8]) -> &[u8]
    ensures { result.now ≡ name_of word.now }
{
    for (i, byte) in word.iter().enumerate() {
        if *byte == b'=' {
            return &word[..i];
        }
    }
    word
}

/// The bytes, copied.
pub(crate) fn copied(alloc: Global, bytes: &[u8]) -> Result<List<u8>, NoMemory>
    ensures { IfOk result (λ copy. copy ≡ bytes.now) }
{
    Ok(List::from_vec(bytes.to_vec(alloc)?))
}

fn split_cell(alloc: Global, word: &[u8]) -> Result<Cell, NoMemory>
    ensures { IfOk result (λ cell. cell ≡ cell_of word.now) }
{
    let name = copied(alloc, before(word))?;
    let symbol = copied(alloc, behind(word))?;
    Ok(Cell { name, symbol })
}

/// The words of a row behind its number, its variable and its object.
fn cell_words(words: &[List<u8>]) -> &[List<u8>]
    ensures { result.now ≡ drop 6 words.now }
{
    match words {
        [_, _, _, _, _, _, cells @ ..] => cells,
        _ => &[],
    }
}

fn add_cells(alloc: Global, cells: &mut List<Cell>, words: &[List<u8>]) -> Result<(), NoMemory>
    ensures { OnOk result (cells.new ≡ cells.old ++ map cell_of words.now) }
{
    for word in words {
        cells.push(split_cell(alloc, word.as_slice())?)?;
    }
    Ok(())
}

/// The cells of one more line; only rows have some.
fn add_line(alloc: Global, cells: &mut List<Cell>, line: &Line) -> Result<(), NoMemory>
    ensures { OnOk result (cells.new ≡ cells.old ++ row_cells line.now) }
{
    if is_row(line.kind) {
        return add_cells(alloc, cells, cell_words(line.words.as_slice()));
    }
    Ok(())
}

/// The cells of the lines, up to the next term.
pub(crate) fn cells_of(alloc: Global, lines: &[Line]) -> Result<List<Cell>, NoMemory>
    ensures { IfOk result (λ cells. cells ≡ cells_from lines.now) }
{
    let mut cells = List::new(alloc);
    for line in lines {
        if is_term(line.kind) {
            return Ok(cells);
        }
        add_line(alloc, &mut cells, line)?;
    }
    Ok(cells)
}

/// How many cells have this symbol.
fn count_of(cells: &[Cell], symbol: &[u8]) -> usize
    ensures count { result ≡ count_from 0 cells.now symbol.now }
    ensures below { result ≤ length cells.now }
{
    let mut count: usize = 0;
    for cell in cells {
        if are_same(cell.symbol.as_slice(), symbol) {
            count += 1;
        }
    }
    count
}

/// The symbols of several cells, each once.
pub(crate) fn classes_of(alloc: Global, cells: &[Cell]) -> Result<List<List<u8>>, NoMemory>
    ensures { IfOk result (λ classes. classes ≡ classes_from cells.now) }
{
    let mut classes = List::new(alloc);
    for (i, cell) in cells.iter().enumerate() {
        if count_of(&cells[i + 1..], cell.symbol.as_slice()) == 1 {
            classes.push(copied(alloc, cell.symbol.as_slice())?)?;
        }
    }
    Ok(classes)
}

/// The place of a symbol among the classes, counted from 1; 0 where it is none.
pub(crate) fn mark_of(classes: &[List<u8>], symbol: &[u8]) -> usize
    ensures { result ≡ mark_from 0 classes.now symbol.now }
{
    for (i, class) in classes.iter().enumerate() {
        if are_same(class.as_slice(), symbol) {
            return i + 1;
        }
    }
    0
}
