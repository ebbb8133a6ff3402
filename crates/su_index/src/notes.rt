//! Notes of the rows by their values in some columns, so that all these values are looked up at once.
ghost use Rattle.std.specs.Prelude.{◌≡◌, ◌<◌, ◌^◌, ◌++◌, ◌∷◌, [], ℕ, List, length, slice_index_or, IsTrue, IfOk, OnOk, IfSome};
ghost use Rattle.std.specs.FinSet as set;
ghost use Rattle.su_base.specs.declared.values.Value.{Value as Stored};
ghost use Rattle.su_rel.specs.Stored.{HaveWidth};
ghost use Rattle.su_index.specs.declared.notes.Notes.{Notes as Noted};
ghost use Rattle.su_index.specs.inside.Notes.{digest_of, IsNoted, AreNoted, AreNotes, AllAreNotes};
ghost use Rattle.su_index.specs.Notes.{Tells};

use crate::alike::Alike;
use crate::lead::lead;
use std::alloc::Global;
use std::collections::HashMap;
use su_base::{AttrSet, NoMemory, Row};

/// The digests of the rows' values in the columns, each with a position where such a row may stand.
/// A row that is taken out stays noted, and one that moves stays noted where it stood.
#[derive(Drop)]
pub(crate) struct Notes {
    pub(crate) columns: AttrSet,
    pub(crate) places: HashMap<u64, u32>,
    /// Whether each row is noted.
    pub(crate) whole: bool,
}

/// 2 ^ 64 divided by the golden ratio: it keeps the digests of near values apart.
const FACTOR: u64 = 11400714819323198485;

/// How many notes of rows that are gone are kept at least.
const SPARE: usize = 1024;

/// The digest of the row's values in the columns.
fn digest(columns: AttrSet, row: &Row) -> u64
    requires { length row.now < 256 }
    ensures { result ≡ digest_of columns row.now }
{
    let mut digest = 0u64;
    for c in 0..row.len() {
        if columns.contains(c as u8) {
            digest = digest
                .wrapping_mul(FACTOR)
                .wrapping_add(lead(row.get(c)) as u64);
        }
    }
    digest
}

/// Whether the row at the place has the digest.
fn stands_at(columns: AttrSet, rows: &[Row], place: u32, digest: u64) -> bool
    requires { (width : ℕ) × (width < 256) × HaveWidth width rows.now }
{
    let place = place as usize;
    place < rows.len() && crate::notes::digest(columns, &rows[place]) == digest
}

/// Notes the row at the position, unless one with its digest stands where it is noted.
fn note_row(
    places: &mut HashMap<u64, u32>,
    columns: AttrSet,
    rows: &[Row],
    row: &Row,
    position: u32,
) -> Result<(), NoMemory>
    requires { (width : ℕ) × (width < 256) × HaveWidth width rows.now × (length row.now ≡ width) }
    ensures kept { (other : List Stored) → IsNoted columns places.old other → IsNoted columns places.new other }
    ensures noted { OnOk result (IsNoted columns places.new row.now) }
{
    let digest = digest(columns, row);
    if let Some(place) = places.get(&digest) {
        if stands_at(columns, rows, *place, digest) {
            return Ok(());
        }
    }
    match places.insert(digest, position) {
        Ok(_) => Ok(()),
        Err(_) => Err(NoMemory),
    }
}

/// The notes of all rows.
fn places_of(alloc: Global, columns: AttrSet, rows: &[Row]) -> Result<HashMap<u64, u32>, NoMemory>
    requires width { (width : ℕ) × (width < 256) × HaveWidth width rows.now }
    requires small { length rows.now < 2 ^ 32 }
    ensures { IfOk result (λ places. AreNoted columns places rows.now) }
{
    let mut places = HashMap::with_capacity(alloc, rows.len())?;
    for position in 0..rows.len() {
        note_row(&mut places, columns, rows, &rows[position], position as u32)?;
    }
    Ok(places)
}

impl Notes {
    /// Notes all rows, where they are not whole or where more than half are of rows that are gone.
    fn make_whole(&mut self, alloc: Global, rows: &[Row]) -> Result<(), NoMemory>
        requires width { (width : ℕ) × (width < 256) × HaveWidth width rows.now }
        requires small { length rows.now < 2 ^ 32 }
        requires notes { AreNotes rows.now self.old }
        ensures notes { AreNotes rows.now self.new }
    {
        if !self.whole || self.places.len() / 2 > rows.len() + SPARE {
            self.places = places_of(alloc, self.columns, rows)?;
            self.whole = true;
        }
        Ok(())
    }

    /// Notes a row that is to be the last.
    fn take_in(&mut self, alloc: Global, rows: &[Row], row: &Row) -> Result<(), NoMemory>
        requires width { (width : ℕ) × (width < 256) × HaveWidth width rows.now × (length row.now ≡ width) }
        requires small { length rows.now < 2 ^ 32 }
        requires notes { AreNotes rows.now self.old }
        ensures notes { AreNotes rows.now self.new }
        ensures row { OnOk result (AreNotes (rows.now ++ row.now ∷ []) self.new) }
    {
        self.make_whole(alloc, rows)?;
        note_row(&mut self.places, self.columns, rows, row, rows.len() as u32)
    }

    /// What the notes tell of the row.
    fn tells(&self, rows: &[Row], row: &Row) -> Alike
        requires width { (width : ℕ) × (width < 256) × HaveWidth width rows.now × (length row.now ≡ width) }
        requires notes { AreNotes rows.now self.now }
        ensures { Tells self.now.columns rows.now row.now result }
    {
        if !self.whole {
            return Alike::Unknown;
        }
        match self.places.get(&digest(self.columns, row)) {
            Some(place) => {
                let place = *place as usize;
                if place < rows.len() {
                    Alike::MaybeAt(place)
                } else {
                    Alike::Unknown
                }
            }
            None => Alike::Nowhere,
        }
    }
}

/// Notes a row that is to be the last in all of them.
pub(crate) fn take_in(
    alloc: Global,
    rows: &[Row],
    row: &Row,
    notes: &mut Vec<Notes>,
) -> Result<(), NoMemory>
    requires width { (width : ℕ) × (width < 256) × HaveWidth width rows.now × (length row.now ≡ width) }
    requires small { length rows.now < 2 ^ 32 }
    requires notes { AllAreNotes rows.now notes.old.items }
    ensures notes { AllAreNotes rows.now notes.new.items }
    ensures row { OnOk result (AllAreNotes (rows.now ++ row.now ∷ []) notes.new.items) }
{
    for k in 0..notes.len() {
        notes[k].take_in(alloc, rows, row)?;
    }
    Ok(())
}

/// Lets none be whole, after a change of many rows: the next row that is taken in notes them all.
pub(crate) fn forget(notes: &mut Vec<Notes>)
    ensures { (rows : List (List Stored)) → AllAreNotes rows notes.new.items }
{
    for k in 0..notes.len() {
        notes[k].whole = false;
    }
}

/// Adds notes by the columns, unless there are some.
pub(crate) fn add_notes(
    alloc: Global,
    columns: AttrSet,
    notes: &mut Vec<Notes>,
) -> Result<(), NoMemory>
    ensures { (rows : List (List Stored)) → AllAreNotes rows notes.old.items → AllAreNotes rows notes.new.items }
{
    if which(columns, notes.as_slice()).is_some() {
        return Ok(());
    }
    let new = Notes {
        columns,
        places: HashMap::new(alloc),
        whole: false,
    };
    match notes.push(new) {
        Ok(()) => Ok(()),
        Err(_) => Err(NoMemory),
    }
}

/// Which notes are by the columns.
fn which(columns: AttrSet, notes: &[Notes]) -> Option<usize>
    ensures { IfSome result (λ k. (k < length notes.now) × ((d : Noted) → IsTrue (set.is_subset (slice_index_or notes.now k d).columns columns))) }
{
    for k in 0..notes.len() {
        let held = notes[k].columns;
        if held.within(columns) && columns.within(held) {
            return Some(k);
        }
    }
    None
}

/// What the notes by the columns tell of the row, if there are some.
pub(crate) fn told(columns: AttrSet, rows: &[Row], row: &Row, notes: &[Notes]) -> Alike
    requires width { (width : ℕ) × (width < 256) × HaveWidth width rows.now × (length row.now ≡ width) }
    requires notes { AllAreNotes rows.now notes.now }
    ensures { Tells columns rows.now row.now result }
{
    match which(columns, notes) {
        Some(k) => notes[k].tells(rows, row),
        None => Alike::Unknown,
    }
}
