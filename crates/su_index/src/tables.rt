//! A relation with an index for each column.
ghost use Rattle.std.specs.Prelude.{◌≡◌, ◌<◌, ◌+◌, ◌-◌, ◌↔◌, [], length, take, Contains, IsTrue, IfOk, IfErr, OnOk, OnErr, slice_get, if◌then◌else◌};
ghost use Rattle.std.specs.Bool.{OnFalse};
ghost use Rattle.std.specs.List.{items_where_true};
ghost use Rattle.su_rel.specs.Changes.{PutInAll, TakenOut, TellsNew};
ghost use Rattle.su_rel.specs.Stored.{HaveWidth, IsRelation};
ghost use Rattle.su_index.specs.Notes.{Tells};
ghost use Rattle.su_index.specs.Matches.{matches, AreMatches, IsMatch};

use crate::alike::Alike;
use crate::columns::{add, grown, make_room, take_out};
use crate::found::Found;
use crate::index::Index;
use crate::keeping::{kept_indexes, ranks};
use crate::notes::{Notes, add_notes, forget, take_in, told};
use std::alloc::Global;
use std::marker::Model;
use std::sync::ledger::Ledger;
use su_base::{AttrSet, List, NoMemory, Row, Steps, Value};
use su_rel::Relation;

/// A set of rows of one width, with an ordered index for each column.
#[derive(Drop)]
pub struct Table {
    alloc: Global,
    rows: Relation,
    indexes: Vec<Index>,
    notes: Vec<Notes>,
}

/// There are at most so many rows, since an index keeps positions in 32 bits.
const MOST: usize = 4294967294;

impl Model for Table {
    ghost use Rattle.su_rel.specs.Stored.{Stored};

    ghost Value = { Stored };

    ghost use Rattle.su_index.specs.inside.Indexed.{IsIndexed};
    ghost use Rattle.su_index.specs.inside.Notes.{AllAreNotes};

    ghost view = { λ t. t.rows };

    ghost invariant = { λ t. IsIndexed t.rows t.indexes.items × AllAreNotes t.rows.rows t.notes.items };
}

impl Table {
    /// A table without rows.
    pub fn new(alloc: Global, width: u8) -> Result<Table, NoMemory>
        ensures width { IfOk result (λ table. table.width ≡ width) }
        ensures empty { IfOk result (λ table. table.rows ≡ []) }
    {
        let mut indexes = Vec::new(alloc);
        for _ in 0..width {
            if indexes.push(Index::new(alloc)).is_err() {
                return Err(NoMemory);
            }
        }
        Ok(Table {
            alloc,
            rows: Relation::new(alloc, width),
            indexes,
            notes: Vec::new(alloc),
        })
    }

    /// How many values each row has.
    pub fn width(&self) -> u8
        ensures { result ≡ self.now.width }
    {
        self.rows.width()
    }

    /// How many rows there are.
    pub fn len(&self) -> usize
        ensures { result ≡ length self.now.rows }
    {
        self.rows.len()
    }

    /// Whether there is no row.
    pub fn is_empty(&self) -> bool
        ensures { IsTrue result ↔ (length self.now.rows ≡ 0) }
    {
        self.rows.is_empty()
    }

    /// The rows by position.
    pub fn as_slice(&self) -> &[Row]
        ensures rows { result.now ≡ self.now.rows }
        ensures relation { IsRelation self.now }
    {
        self.rows.as_slice()
    }

    /// The row at position `i`, from 0, counted nowhere.
    pub fn row(&self, i: usize) -> &Row
        requires { i < length self.now.rows }
        ensures { slice_get self.now.rows i ≡ Some result.now }
    {
        self.rows.row(i)
    }

    /// Whether the row is there.
    pub fn has(&self, row: &Row) -> bool
        ensures { IsTrue result ↔ Contains self.now.rows row.now }
    {
        self.rows.has(row)
    }

    /// Puts the row in, and answers whether it is new; a refused row comes back.
    pub fn insert(&mut self, row: Row) -> Result<bool, (Row, NoMemory)>
        requires { length row ≡ self.old.width }
        ensures width { self.new.width ≡ self.old.width }
        ensures ok { IfOk result (λ is_new. TellsNew is_new self.old row self.new) }
        ensures unchanged { OnErr result (self.new ≡ self.old) }
        ensures handed_back { IfErr result (λ e. e.0 ≡ row) }
    {
        // For the proof: the width is a `u8`.
        let _width = self.rows.width();
        if self.rows.len() >= MOST {
            return Err((row, NoMemory));
        }
        if make_room(self.alloc, self.rows.as_slice(), &mut self.indexes).is_err() {
            return Err((row, NoMemory));
        }
        if take_in(self.alloc, self.rows.as_slice(), &row, &mut self.notes).is_err() {
            return Err((row, NoMemory));
        }
        let position = self.rows.len() as u32;
        match self.rows.insert(row) {
            Ok(true) => {
                add(self.rows.as_slice(), position, &mut self.indexes);
                Ok(true)
            }
            Ok(false) => Ok(false),
            Err(refused) => Err(refused),
        }
    }

    /// Puts the rows in one after another, and answers how many were new; the indexes are sorted once.
    /// Where memory is wanting, none is put in, and they are dropped.
    pub fn insert_all(&mut self, rows: List<Row>) -> Result<usize, NoMemory>
        requires { HaveWidth self.old.width rows }
        ensures width { self.new.width ≡ self.old.width }
        ensures rows { IfOk result (λ _. PutInAll self.old.rows rows self.new.rows) }
        ensures count { IfOk result (λ new. length self.new.rows ≡ length self.old.rows + new) }
        ensures unchanged { OnErr result (self.new ≡ self.old) }
    {
        let before = self.rows.len();
        let new = self.rows.insert_all(rows)?;
        if self.rows.len() > MOST {
            self.rows.truncate(before);
            return Err(NoMemory);
        }
        let Ok(indexes) = grown(
            self.alloc,
            self.rows.as_slice(),
            self.indexes.as_slice(),
            before,
        ) else {
            self.rows.truncate(before);
            return Err(NoMemory);
        };
        self.indexes = indexes;
        forget(&mut self.notes);
        Ok(new)
    }

    /// Takes the row out, and answers whether it was there. It takes no memory.
    pub fn remove(&mut self, row: &Row) -> bool
        ensures width { self.new.width ≡ self.old.width }
        ensures there { IsTrue result ↔ Contains self.old.rows row.now }
        ensures out { TakenOut self.old.rows row.now self.new.rows }
        ensures count { length self.new.rows + (if result then 1 else 0) ≡ length self.old.rows }
        ensures unchanged { OnFalse result (self.new ≡ self.old) }
    {
        let Some(position) = self.rows.position(row) else {
            return false;
        };
        take_out(self.rows.as_slice(), position as u32, &mut self.indexes);
        let _row = self.rows.remove_at(position);
        true
    }

    /// Takes the last row out. It takes no memory.
    fn remove_last(&mut self)
        requires { 0 < length self.old.rows }
        ensures width { self.new.width ≡ self.old.width }
        ensures rows { self.new.rows ≡ take (length self.old.rows - 1) self.old.rows }
    {
        let last = self.rows.len() - 1;
        take_out(self.rows.as_slice(), last as u32, &mut self.indexes);
        let _row = self.rows.remove_at(last);
    }

    /// Keeps the first `len` rows, and takes the later ones out one after another. It takes no memory.
    pub fn truncate(&mut self, len: usize)
        ensures width { self.new.width ≡ self.old.width }
        ensures rows { self.new.rows ≡ take len self.old.rows }
    {
        while self.rows.len() > len {
            self.remove_last();
        }
    }

    /// Keeps the rows whose mark is set, in their order; the marks stand by position. One pass over
    /// rows and indexes, without a sort.
    pub fn keep(&mut self, kept: &[bool]) -> Result<(), NoMemory>
        requires { length kept.now ≡ length self.old.rows }
        ensures width { self.new.width ≡ self.old.width }
        ensures rows { OnOk result (self.new.rows ≡ items_where_true kept.now self.old.rows) }
        ensures unchanged { OnErr result (self.new ≡ self.old) }
    {
        let ranks = ranks(self.alloc, kept)?;
        let indexes = kept_indexes(self.alloc, kept, ranks.as_slice(), self.indexes.as_slice())?;
        self.rows.keep(kept);
        self.indexes = indexes;
        forget(&mut self.notes);
        Ok(())
    }

    /// The positions of the rows that have the value in the column, ascending. The value is looked
    /// up once, whatever is then asked of the positions.
    pub fn found<'a>(&'a self, column: u8, value: &Value) -> Found<'a>
        requires { column < self.now.width }
        ensures { AreMatches column value.now self.now.rows result }
    {
        let column = column as usize;
        self.indexes[column].found(self.rows.as_slice(), column, value)
    }

    /// How many rows have the value in the column.
    pub fn matching(&self, column: u8, value: &Value) -> usize
        requires { column < self.now.width }
        ensures { result ≡ matches column value.now self.now.rows }
    {
        let column = column as usize;
        self.indexes[column].matching(self.rows.as_slice(), column, value)
    }

    /// The position of the k-th row that has the value in the column, from 0 by ascending position. Each
    /// call looks the value up anew, where `found` does so once.
    pub fn matched(&self, column: u8, value: &Value, k: usize) -> usize
        requires column { column < self.now.width }
        requires within { k < matches column value.now self.now.rows }
        ensures { IsMatch column value.now self.now.rows k result }
    {
        let column = column as usize;
        self.indexes[column].matched(self.rows.as_slice(), column, value, k)
    }

    /// From now on rows are noted by their values in the columns, so that `alike` tells of them. A note
    /// takes some 20 bytes a row; the next insert makes those of the rows that are there.
    pub fn note(&mut self, columns: AttrSet) -> Result<(), NoMemory>
        ensures { self.new ≡ self.old }
    {
        add_notes(self.alloc, columns, &mut self.notes)
    }

    /// What the notes tell of the rows that have the row's values in the columns: an optimisation, for
    /// it may always answer that they don't tell. It costs one look into a hash table.
    pub fn alike(&self, columns: AttrSet, row: &Row) -> Alike
        requires { length row.now ≡ self.now.width }
        ensures { Tells columns self.now.rows row.now result }
    {
        // For the proof: the width is a `u8`.
        let _width = self.rows.width();
        told(columns, self.rows.as_slice(), row, self.notes.as_slice())
    }

    /// The row at position `i`, from 0; one step is counted.
    pub fn fetch<L: Ledger>(&self, i: usize, steps: &mut Steps<L>) -> &Row
        requires { i < length self.now.rows }
        ensures row { slice_get self.now.rows i ≡ Some result.now }
        ensures counted { steps.new ≡ steps.old + 1 }
    {
        steps.tick();
        self.rows.row(i)
    }
}
