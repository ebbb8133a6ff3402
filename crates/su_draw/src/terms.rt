//! The terms of an explanation: where they begin, how high their lines stand, and which rows are kept.
ghost use Rattle.std.specs.Prelude.{◌≡◌, ◌+◌, drop, IfOk};
ghost use Rattle.std.specs.List.{list_any};
ghost use Rattle.std.specs.Str.{bytes_eq};
ghost use Rattle.su_draw.specs.Terms.{is_term as begins_term, is_row as row_kind, tells_kept as kept_kind, tells_fold as fold_kind, kept_next, is_light as light, terms_from, kept_lines};
ghost use Rattle.su_draw.specs.inside.Lay.{step_to as step, room_below as room, heights_from, lights_from, fold_next, row_from};

use crate::cells::copied;
use crate::measures::{HIGH, word_at};
use std::alloc::Global;
use su_base::{List, NoMemory};
use su_explained::{Kind, Line, are_same};

/// Whether the line begins a term.
pub(crate) fn is_term(kind: Kind) -> bool
    ensures { result ≡ begins_term kind }
{
    matches!(kind, Kind::Term)
}

/// Whether the line is a row of a term.
pub(crate) fn is_row(kind: Kind) -> bool
    ensures { result ≡ row_kind kind }
{
    matches!(kind, Kind::Row)
}

/// Whether the line tells a term's kept rows.
pub(crate) fn tells_kept(kind: Kind) -> bool
    ensures { result ≡ kept_kind kind }
{
    matches!(kind, Kind::Kept)
}

/// Whether the line tells a term's fold.
fn tells_fold(kind: Kind) -> bool
    ensures { result ≡ fold_kind kind }
{
    matches!(kind, Kind::Fold)
}

/// For each line the line that its term begins with.
pub(crate) fn terms_of(alloc: Global, lines: &[Line]) -> Result<List<usize>, NoMemory>
    ensures { IfOk result (λ terms. terms ≡ terms_from 0 0 lines.now) }
{
    let mut terms = List::new(alloc);
    let mut term: usize = 0;
    for (number, line) in lines.iter().enumerate() {
        if is_term(line.kind) {
            term = number;
        }
        terms.push(term)?;
    }
    Ok(terms)
}

/// How far a line stands below the one before it.
fn step_to(kind: Kind) -> u32
    ensures { result ≡ step kind }
{
    match kind {
        Kind::Kept | Kind::Fold | Kind::Sources => 0,
        Kind::Term | Kind::Count => 2 * HIGH,
        _ => HIGH,
    }
}

/// The room below a line: the names of columns stand below a term's.
fn room_below(kind: Kind) -> u32
    ensures { result ≡ room kind }
{
    match kind {
        Kind::Term => HIGH,
        _ => 0,
    }
}

/// How high each line stands.
pub(crate) fn heights_of(alloc: Global, lines: &[Line]) -> Result<List<u32>, NoMemory>
    ensures { IfOk result (λ heights. heights ≡ heights_from 10 lines.now) }
{
    let mut heights = List::new(alloc);
    let mut height: u32 = HIGH / 2;
    for line in lines {
        height = height.saturating_add(step_to(line.kind));
        heights.push(height)?;
        height = height.saturating_add(room_below(line.kind));
    }
    Ok(heights)
}

/// The rows that a line tells.
fn rows_told(words: &[List<u8>]) -> &[List<u8>]
    ensures { result.now ≡ drop 3 words.now }
{
    match words {
        [_, _, _, rows @ ..] => rows,
        _ => &[],
    }
}

/// The kept rows that are told next.
pub(crate) fn kept_behind(lines: &[Line]) -> &[List<u8>]
    ensures { result.now ≡ kept_next lines.now }
{
    for line in lines {
        if tells_kept(line.kind) {
            return rows_told(line.words.as_slice());
        }
    }
    &[]
}

/// The words of the fold that is told next.
pub(crate) fn fold_behind(lines: &[Line]) -> &[List<u8>]
    ensures { result.now ≡ fold_next lines.now }
{
    for line in lines {
        if tells_fold(line.kind) {
            return line.words.as_slice();
        }
    }
    &[]
}

/// Whether the word is one of the rows.
fn is_among(rows: &[List<u8>], word: &[u8]) -> bool
    ensures { result ≡ list_any (λ row. bytes_eq row word.now) rows.now }
{
    rows.iter().any(|row| are_same(row.as_slice(), word))
}

/// Whether the line is a row, and none of the kept ones that are told behind it.
fn is_light(line: &Line, behind: &[Line]) -> bool
    ensures { result ≡ light line.now behind.now }
{
    is_row(line.kind) && !is_among(kept_behind(behind), word_at(line.words.as_slice(), 3))
}

/// Of each line whether it is a row that isn't kept.
pub(crate) fn lights_of(alloc: Global, lines: &[Line]) -> Result<List<bool>, NoMemory>
    ensures { IfOk result (λ lights. lights ≡ lights_from lines.now) }
{
    let mut lights = List::new(alloc);
    for (number, line) in lines.iter().enumerate() {
        lights.push(is_light(line, &lines[number + 1..]))?;
    }
    Ok(lights)
}

/// The lines behind one.
pub(crate) fn lines_behind(lines: &[Line], line: usize) -> &[Line]
    ensures { result.now ≡ drop (line + 1) lines.now }
{
    if line < lines.len() {
        return &lines[line + 1..];
    }
    &[]
}

/// The place among the lines of the row whose number the word is; behind them, where there is none.
pub(crate) fn row_among(lines: &[Line], word: &[u8]) -> usize
    ensures { result ≡ row_from 0 lines.now word.now }
{
    for (i, line) in lines.iter().enumerate() {
        if is_row(line.kind) && are_same(word_at(line.words.as_slice(), 3), word) {
            return i;
        }
    }
    lines.len()
}

fn copy_words(alloc: Global, words: &[List<u8>]) -> Result<List<List<u8>>, NoMemory>
    ensures { IfOk result (λ copy. copy ≡ words.now) }
{
    let mut copy = List::new(alloc);
    for word in words {
        copy.push(copied(alloc, word.as_slice())?)?;
    }
    Ok(copy)
}

fn copy_line(alloc: Global, line: &Line) -> Result<Line, NoMemory>
    ensures { IfOk result (λ copy. copy ≡ line.now) }
{
    let words = copy_words(alloc, line.words.as_slice())?;
    Ok(Line {
        kind: line.kind,
        words,
    })
}

/// The lines without those of rows that aren't kept, and of folds.
pub(crate) fn only_kept(alloc: Global, lines: &[Line]) -> Result<List<Line>, NoMemory>
    ensures { IfOk result (λ kept. kept ≡ kept_lines lines.now) }
{
    let mut kept = List::new(alloc);
    for (number, line) in lines.iter().enumerate() {
        if !is_light(line, &lines[number + 1..]) && !tells_fold(line.kind) {
            kept.push(copy_line(alloc, line)?)?;
        }
    }
    Ok(kept)
}
