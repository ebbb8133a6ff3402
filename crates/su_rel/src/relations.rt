//! A set of rows over an `IndexSet`.
ghost use Rattle.std.specs.Prelude.{◌≡◌, ◌<◌, ◌+◌, ◌↔◌, false, [], ◌∷◌, ◌++◌, length, take, drop, slice_index_or, Contains, IsTrue, IfOk, IfErr, OnErr, MatchBool, MatchOption, slice_get, if◌then◌else◌};
ghost use Rattle.std.specs.Bool.{OnFalse};
ghost use Rattle.std.specs.List.{items_where_true, swap_remove};
ghost use Rattle.su_rel.specs.Changes.{PutInAll, TakenOut, TellsNew};
ghost use Rattle.su_rel.specs.Stored.{HaveWidth, IsRelation};

use indexmap::IndexSet;
use std::alloc::{AllocFailed, Global};
use std::marker::Model;
use su_base::{List, NoMemory, Row};

/// A set of rows of one width. A row has a position below the number of rows; an insert puts the
/// new row last, a remove moves the last row to the free place.
#[derive(Drop)]
pub struct Relation {
    width: u8,
    rows: IndexSet<Row>,
}

impl Model for Relation {
    ghost use Rattle.su_rel.specs.Stored.{Stored, HaveWidth};

    ghost Value = { Stored };

    ghost view = { λ r. record { width = r.width; rows = r.rows.keys } };

    ghost invariant = { λ r. HaveWidth r.width r.rows.keys };
}

impl Relation {
    /// A relation without rows. It takes no memory yet.
    pub fn new(alloc: Global, width: u8) -> Relation
        ensures width { result.width ≡ width }
        ensures empty { result.rows ≡ [] }
    {
        Relation {
            width,
            rows: IndexSet::new(alloc),
        }
    }

    /// How many values each row has.
    pub fn width(&self) -> u8
        ensures { result ≡ self.now.width }
    {
        self.width
    }

    /// How many rows there are.
    pub fn len(&self) -> usize
        ensures { result ≡ length self.now.rows }
    {
        self.rows.len()
    }

    /// Whether there is no row.
    pub fn is_empty(&self) -> bool
        ensures { IsTrue result ↔ (length self.now.rows ≡ 0) }
    {
        self.rows.is_empty()
    }

    /// The rows by position.
    pub fn as_slice(&self) -> &[Row]
        ensures rows { result.now ≡ self.now.rows }
        ensures relation { IsRelation self.now }
    {
        self.rows.as_slice()
    }

    /// The row at position `i`, from 0.
    pub fn row(&self, i: usize) -> &Row
        requires { i < length self.now.rows }
        ensures { slice_get self.now.rows i ≡ Some result.now }
    {
        &self.rows.as_slice()[i]
    }

    /// Whether the row is there.
    pub fn has(&self, row: &Row) -> bool
        ensures { IsTrue result ↔ Contains self.now.rows row.now }
    {
        self.rows.contains(row)
    }

    /// The position of the row, or `None` where it is not there.
    pub fn position(&self, row: &Row) -> Option<usize>
        ensures { MatchOption result (¬ Contains self.now.rows row.now) (λ i. slice_get self.now.rows i ≡ Some row.now) }
    {
        self.rows.get_index_of(row)
    }

    /// Puts the row in, and answers whether it is new; a refused row comes back.
    pub fn insert(&mut self, row: Row) -> Result<bool, (Row, NoMemory)>
        requires { length row ≡ self.old.width }
        ensures width { self.new.width ≡ self.old.width }
        ensures ok { IfOk result (λ is_new. TellsNew is_new self.old row self.new) }
        ensures unchanged { OnErr result (self.new ≡ self.old) }
        ensures handed_back { IfErr result (λ e. e.0 ≡ row) }
    {
        match self.rows.insert(row) {
            Ok(new) => Ok(new),
            Err(AllocFailed { value }) => Err((value, NoMemory)),
        }
    }

    /// Puts the rows in one after another, and answers how many were new. Where memory is wanting,
    /// none is put in, and they are dropped.
    pub fn insert_all(&mut self, rows: List<Row>) -> Result<usize, NoMemory>
        requires { HaveWidth self.old.width rows }
        ensures width { self.new.width ≡ self.old.width }
        ensures rows { IfOk result (λ _. PutInAll self.old.rows rows self.new.rows) }
        ensures count { IfOk result (λ new. length self.new.rows ≡ length self.old.rows + new) }
        ensures unchanged { OnErr result (self.new ≡ self.old) }
    {
        let before = self.rows.len();
        for row in rows.into_vec() {
            let Ok(_) = self.rows.insert(row) else {
                self.rows.truncate(before);
                return Err(NoMemory);
            };
        }
        Ok(self.rows.len() - before)
    }

    /// Takes the row out, and answers whether it was there. It takes no memory.
    pub fn remove(&mut self, row: &Row) -> bool
        ensures width { self.new.width ≡ self.old.width }
        ensures there { IsTrue result ↔ Contains self.old.rows row.now }
        ensures out { TakenOut self.old.rows row.now self.new.rows }
        ensures count { length self.new.rows + (if result then 1 else 0) ≡ length self.old.rows }
        ensures unchanged { OnFalse result (self.new ≡ self.old) }
    {
        match self.position(row) {
            Some(i) => {
                let _row = self.remove_at(i);
                true
            }
            None => false,
        }
    }

    /// Takes out the row at position `i`; the last row moves there. It takes no memory.
    pub fn remove_at(&mut self, i: usize) -> Row
        requires { i < length self.old.rows }
        ensures width { self.new.width ≡ self.old.width }
        ensures row { slice_get self.old.rows i ≡ Some result }
        ensures rows { self.new.rows ≡ swap_remove self.old.rows i result }
        ensures out { TakenOut self.old.rows result self.new.rows }
    {
        // For the proof: the rows differ.
        let _len = self.rows.len();
        match self.rows.swap_remove_index(i) {
            Some(row) => row,
            None => unreachable!(),
        }
    }

    /// Keeps the first `len` rows. It takes no memory.
    pub fn truncate(&mut self, len: usize)
        ensures width { self.new.width ≡ self.old.width }
        ensures rows { self.new.rows ≡ take len self.old.rows }
    {
        self.rows.truncate(len);
    }

    /// Keeps the rows whose mark is set, in their order; the marks stand by position. It takes no
    /// memory.
    pub fn keep(&mut self, kept: &[bool])
        requires { length kept.now ≡ length self.old.rows }
        ensures width { self.new.width ≡ self.old.width }
        ensures rows { self.new.rows ≡ items_where_true kept.now self.old.rows }
    {
        let mut left = kept;
        self.rows.retain(
            |_: &Row|
                ensures first { result ≡ slice_index_or left.entry.now 0 false }
                ensures rest { left.exit.now ≡ drop 1 left.entry.now }
            {
                match left {
                    [] => false,
                    [first, rest @ ..] => {
                        left = rest;
                        *first
                    }
                }
            },
        );
    }
}
