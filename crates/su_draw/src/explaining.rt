//! Where the things of an explanation are drawn.
ghost use Rattle.std.specs.Prelude.{◌≡◌, false, ◌++◌, slice_get, IfOk, OnOk};
ghost use Rattle.su_draw.specs.Terms.{or_else, terms_from, words_at};
ghost use Rattle.su_explained.specs.Numbers.{number_in as number_told};
ghost use Rattle.su_draw.specs.inside.Lay.{height_in, row_height as height_of_row, heights_from, lights_from, or_false, in_row as stands_in_row, fold_place, source_place, text_at as standing, StandsAs, heading_over, headings_over, headings_from};

use crate::cells::copied;
use crate::measures::{HIGH, front_of, lanes, offset_of, word_at, words_of};
use crate::shapes::{Help, Position};
use crate::tables::{Table, column_at, lane_behind};
use crate::terms::{
    heights_of, is_row, is_term, kept_behind, lights_of, lines_behind, row_among, terms_of,
};
use crate::things::{Thing, What};
use std::alloc::Global;
use su_base::{List, NoMemory};
use su_explained::{Kind, Line, number_of};

/// What is laid out: of each line the line that its term begins with, its height, and whether it is a row
/// that isn't kept; the terms that cover others, each of which has a lane at the left end, and how wide the
/// lanes are.
pub(crate) struct Layout<'a> {
    pub(crate) lines: &'a [Line],
    pub(crate) terms: List<usize>,
    pub(crate) heights: List<u32>,
    pub(crate) lights: List<bool>,
    pub(crate) covers: List<usize>,
    pub(crate) left: u32,
}

/// Not derived, so that it is a single call wherever a layout goes out of scope.
impl Drop for Layout<'_> {
    fn drop(self) {
        let Layout {
            lines: _,
            terms: _,
            heights: _,
            lights: _,
            covers: _,
            left: _,
        } = self;
    }
}

/// The number that a word is the decimal of; 0 where it is none.
fn number_in(word: &[u8]) -> usize
    ensures { result ≡ or_else 0 (number_told word.now) }
{
    number_of(word).unwrap_or(0)
}

/// The terms that cover others, each once.
fn covers_of(alloc: Global, lines: &[Line]) -> Result<List<usize>, NoMemory> {
    let mut covers = List::new(alloc);
    for line in lines {
        if line.kind == Kind::Covered {
            let by = number_in(word_at(line.words.as_slice(), 5));
            if !covers.as_slice().contains(&by) {
                covers.push(by)?;
            }
        }
    }
    Ok(covers)
}

/// How high a line is.
fn height_at(heights: &[u32], line: usize) -> u32
    ensures { result ≡ height_in heights.now line }
{
    match heights.get(line) {
        Some(height) => *height,
        None => 0,
    }
}

/// How high a row of a term is, whose rows stand directly behind its own line.
fn row_height(heights: &[u32], term: usize, row: usize) -> u32
    ensures { result ≡ height_of_row heights.now term row }
{
    if term < heights.len() {
        return height_at(&heights[term + 1..], row);
    }
    0
}

/// Whether the term that is told next has sources.
fn tells_sources(lines: &[Line]) -> bool {
    for line in lines {
        match line.kind {
            Kind::Sources => return true,
            Kind::Term => return false,
            _ => {}
        }
    }
    false
}

/// A text that is no symbol.
fn text_at(x: u32, y: u32) -> Position
    ensures { result ≡ standing x y false }
{
    Position {
        x,
        y,
        edge: 0,
        lane: 0,
        to: 0,
        mark: 0,
        light: false,
    }
}

/// The name of a column, over it.
fn heading_of(alloc: Global, table: &Table, name: &[u8], y: u32) -> Result<Help, NoMemory>
    ensures { IfOk result (λ help. help ≡ heading_over y table.now name.now) }
{
    Ok(Help::Heading {
        x: column_at(table.first, table.columns.as_slice(), name),
        y,
        text: copied(alloc, name)?,
    })
}

/// The names of a table's columns, each over its column.
fn add_headings(
    alloc: Global,
    helps: &mut List<Help>,
    table: &Table,
    y: u32,
) -> Result<(), NoMemory>
    ensures { OnOk result (helps.new ≡ helps.old ++ headings_over y table.now) }
{
    for column in table.columns.as_slice() {
        helps.push(heading_of(alloc, table, column.name.as_slice(), y)?)?;
    }
    Ok(())
}

impl<'a> Layout<'a> {
    pub(crate) fn new(alloc: Global, lines: &'a [Line]) -> Result<Layout<'a>, NoMemory>
        ensures lines { IfOk result (λ layout. layout.lines.now ≡ lines.now) }
        ensures terms { IfOk result (λ layout. layout.terms ≡ terms_from 0 0 lines.now) }
        ensures heights { IfOk result (λ layout. layout.heights ≡ heights_from 10 lines.now) }
        ensures lights { IfOk result (λ layout. layout.lights ≡ lights_from lines.now) }
    {
        let terms = terms_of(alloc, lines)?;
        let heights = heights_of(alloc, lines)?;
        let lights = lights_of(alloc, lines)?;
        let covers = covers_of(alloc, lines)?;
        let left = 30 + 10 * lanes(covers.len());
        Ok(Layout {
            lines,
            terms,
            heights,
            lights,
            covers,
            left,
        })
    }

    fn height(&self, line: usize) -> u32
        ensures { result ≡ height_in self.now.heights line }
    {
        height_at(self.heights.as_slice(), line)
    }

    /// Whether the line is a row that isn't kept.
    fn is_light(&self, line: usize) -> bool
        ensures { result ≡ or_false (slice_get self.now.lights line) }
    {
        match self.lights.as_slice().get(line) {
            Some(light) => *light,
            None => false,
        }
    }

    /// The line that the term of a line begins with.
    pub(crate) fn term_at(&self, line: usize) -> usize
        ensures { result ≡ or_else 0 (slice_get self.now.terms line) }
    {
        match self.terms.as_slice().get(line) {
            Some(term) => *term,
            None => 0,
        }
    }

    fn label(&self, thing: &Thing) -> Position {
        let offset = offset_of(words_of(self.lines, thing.line), thing.word);
        text_at(self.left.saturating_add(offset), self.height(thing.line))
    }

    /// A row's number, its variable, its object or a symbol of it.
    fn in_row(&self, table: &Table, thing: &Thing) -> Position
        ensures { result ≡ stands_in_row self.now.left table.now thing.now.word (words_at self.now.lines.now thing.now.line) (height_in self.now.heights thing.now.line) (or_false (slice_get self.now.lights thing.now.line)) }
    {
        let word = word_at(words_of(self.lines, thing.line), thing.word);
        Position {
            x: table.row_x(self.left, thing.word, word),
            y: self.height(thing.line),
            edge: 0,
            lane: 0,
            to: 0,
            mark: table.row_mark(thing.word, word),
            light: self.is_light(thing.line),
        }
    }

    /// An object that a kept row is read from, beside it.
    fn source(&self, table: &Table, thing: &Thing) -> Position
        ensures { result ≡ source_place table.now self.now.lines.now self.now.heights thing.now.word (words_at self.now.lines.now thing.now.line) }
    {
        let words = words_of(self.lines, thing.line);
        let offset = offset_of(words, thing.word).saturating_sub(offset_of(words, 4));
        let row = row_among(lines_behind(self.lines, table.term), word_at(words, 3));
        text_at(
            table.sources.saturating_add(offset),
            row_height(self.heights.as_slice(), table.term, row),
        )
    }

    /// The arrow of a row to the row that it folds to.
    fn fold(&self, table: &Table, thing: &Thing) -> Position
        ensures { result ≡ fold_place table.now self.now.heights thing.now.word (words_at self.now.lines.now thing.now.line) }
    {
        let words = words_of(self.lines, thing.line);
        let heights = self.heights.as_slice();
        let target = number_in(word_at(words, thing.word));
        let before = front_of(words, thing.word);
        Position {
            x: 0,
            y: row_height(heights, table.term, thing.word.saturating_sub(3)),
            edge: table.right.saturating_add(8),
            lane: lane_behind(table.right.saturating_add(24), before),
            to: row_height(heights, table.term, target),
            mark: 0,
            light: true,
        }
    }

    /// The line of the term with this number; 0 where there is none.
    fn term_line(&self, term: usize) -> usize {
        let mut count: usize = 0;
        for (number, line) in self.lines.iter().enumerate() {
            if is_term(line.kind) {
                if count == term {
                    return number;
                }
                count = count.saturating_add(1);
            }
        }
        0
    }

    fn cover(&self, thing: &Thing) -> Position {
        let by = number_in(word_at(words_of(self.lines, thing.line), 5));
        let lane = self.covers.as_slice().iter().position(|term| *term == by);
        let to = self.height(self.term_line(by));
        Position {
            edge: self.left.saturating_sub(4),
            lane: 10 + 10 * lanes(lane.unwrap_or(0)),
            to,
            ..self.label(thing)
        }
    }

    /// A word that is shown for itself.
    fn other(&self, table: &Table, thing: &Thing) -> Position {
        match self.lines.get(thing.line) {
            Some(line) if is_row(line.kind) => self.in_row(table, thing),
            _ => self.label(thing),
        }
    }

    /// Where a thing is drawn, by the table of its term.
    pub(crate) fn place(&self, table: &Table, thing: &Thing) -> Position
        ensures { StandsAs thing.now.what self.now.lines.now self.now.heights self.now.lights self.now.left table.now thing.now result }
    {
        match thing.what {
            What::Row | What::Symbol => self.in_row(table, thing),
            What::Fold => self.fold(table, thing),
            What::Source => self.source(table, thing),
            What::Cover => self.cover(thing),
            _ => self.other(table, thing),
        }
    }

    /// The names of all columns. Rows before any term, of which a text that is read has none, belong to
    /// the first line.
    pub(crate) fn headings(&self, alloc: Global) -> Result<List<Help>, NoMemory>
        ensures { IfOk result (λ helps. helps ≡ headings_from self.now.left self.now.heights self.now.lines.now 0 self.now.lines.now) }
    {
        let mut helps = List::new(alloc);
        for (number, line) in self.lines.iter().enumerate() {
            if number == 0 || is_term(line.kind) {
                let table = Table::of(alloc, self.left, self.lines, number)?;
                add_headings(
                    alloc,
                    &mut helps,
                    &table,
                    self.height(number).saturating_add(HIGH),
                )?;
            }
        }
        Ok(helps)
    }

    /// The grounds of a table's kept rows.
    fn add_bands(&self, helps: &mut List<Help>, table: &Table) -> Result<(), NoMemory> {
        let rows = lines_behind(self.lines, table.term);
        for row in kept_behind(rows) {
            let row = row_among(rows, row.as_slice());
            helps.push(Help::Band {
                x: self.left.saturating_sub(4),
                y: row_height(self.heights.as_slice(), table.term, row).saturating_sub(15),
                width: table.right.saturating_sub(self.left),
            })?;
        }
        Ok(())
    }

    /// The heading over the sources of a term that has some.
    fn add_sources(
        &self,
        alloc: Global,
        helps: &mut List<Help>,
        table: &Table,
    ) -> Result<(), NoMemory> {
        if tells_sources(lines_behind(self.lines, table.term)) {
            helps.push(Help::Heading {
                x: table.sources,
                y: self.height(table.term).saturating_add(HIGH),
                text: copied(alloc, b"read from")?,
            })?;
        }
        Ok(())
    }

    /// The grounds of kept rows, and the headings over sources.
    pub(crate) fn others(&self, alloc: Global) -> Result<List<Help>, NoMemory> {
        let mut helps = List::new(alloc);
        for (number, line) in self.lines.iter().enumerate() {
            if is_term(line.kind) {
                let table = Table::of(alloc, self.left, self.lines, number)?;
                self.add_bands(&mut helps, &table)?;
                self.add_sources(alloc, &mut helps, &table)?;
            }
        }
        Ok(helps)
    }

    /// How high the last line is.
    pub(crate) fn bottom(&self) -> u32 {
        match self.heights.as_slice().last() {
            Some(height) => *height,
            None => 0,
        }
    }
}
