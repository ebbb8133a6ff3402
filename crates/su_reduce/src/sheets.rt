//! Rows of codes, of one width, in one vector.
ghost use Rattle.std.specs.Prelude.{◌≡◌, ◌+◌, ◌*◌, ◌<◌, ◌≤◌, [], ◌∷◌, ◌++◌, length, get_or, take, drop, All, OnOk, OnErr, if◌then◌else◌};
ghost use Rattle.su_reduce.specs.Left.{marked};
ghost use Rattle.su_reduce.specs.Sheets.{cut};

use std::alloc::{AllocError, Global};
use std::marker::Model;

/// Rows of one width. A row's cells stand side by side.
#[derive(Drop)]
pub struct Sheet {
    width: usize,
    count: usize,
    cells: Vec<u32>,
}

impl Model for Sheet {
    ghost use Rattle.std.specs.Prelude.{◌≡◌, ◌*◌, length};
    ghost use Rattle.su_reduce.specs.Sheets.{Rows, cut};

    ghost Value = { Rows };

    ghost view = { λ s. record { width = s.width; rows = cut s.width s.count s.cells.items } };

    ghost invariant = { λ s. length s.cells.items ≡ s.count * s.width };
}

impl Sheet {
    /// No rows.
    pub fn new(alloc: Global, width: usize) -> Sheet
        ensures { result ≡ record { width = width; rows = [] } }
    {
        Sheet {
            width,
            count: 0,
            cells: Vec::new(alloc),
        }
    }

    /// How many cells a row has.
    pub fn width(&self) -> usize
        ensures { result ≡ self.now.width }
    {
        self.width
    }

    /// How many rows there are.
    pub fn len(&self) -> usize
        ensures { result ≡ length self.now.rows }
    {
        self.count
    }

    /// For proofs: each row has the width. It does nothing.
    pub fn keeps_its_rules(&self)
        ensures { All (λ r. length r ≡ self.now.width) self.now.rows }
    {
        let _ = &self.cells;
    }

    /// A row.
    pub fn row(&self, i: usize) -> &[u32]
        requires { i < length self.now.rows }
        ensures is { result.now ≡ get_or self.now.rows i [] }
        ensures width { length result.now ≡ self.now.width }
    {
        let cells = self.cells.as_slice();
        let start = i * self.width;
        piece(cells, start, self.width)
    }

    /// One more row.
    pub fn push(&mut self, row: &[u32]) -> Result<(), AllocError>
        requires width { length row.now ≡ self.old.width }
        ensures width { self.new.width ≡ self.old.width }
        ensures ok { OnOk result (self.new.rows ≡ self.old.rows ++ row.now ∷ []) }
        ensures unchanged { OnErr result (self.new.rows ≡ self.old.rows) }
    {
        let Some(count) = self.count.checked_add(1) else {
            // 2^64 rows: more than memory has, and of rows without cells more than are ever pushed.
            return Err(AllocError);
        };
        self.cells.extend_from_slice(row)?;
        self.count = count;
        Ok(())
    }

    /// One more row where it is wanted.
    pub fn push_if(&mut self, wanted: bool, row: &[u32]) -> Result<(), AllocError>
        requires width { length row.now ≡ self.old.width }
        ensures width { self.new.width ≡ self.old.width }
        ensures ok { OnOk result (self.new.rows ≡ self.old.rows ++ (if wanted then row.now ∷ [] else [])) }
        ensures unchanged { OnErr result (self.new.rows ≡ self.old.rows) }
    {
        if wanted {
            self.push(row)?;
        }
        Ok(())
    }

    /// Keeps the marked rows, in their order. It takes no memory.
    pub fn keep(&mut self, marks: &[bool])
        requires { length marks.now ≡ length self.old.rows }
        ensures width { self.new.width ≡ self.old.width }
        ensures rows { self.new.rows ≡ marked marks.now self.old.rows }
    {
        let kept = bring_forward(self.cells.as_mut_slice(), self.width, marks);
        self.cells.truncate(kept * self.width);
        self.count = kept;
    }
}

/// Puts some cells side by side where others stand before them.
fn move_back(cells: &mut [u32], from: usize, to: usize, width: usize)
    requires order { to ≤ from }
    requires within { from + width ≤ length cells.old }
    ensures length { length cells.new ≡ length cells.old }
    ensures front { take (to + width) cells.new ≡ take to cells.old ++ take width (drop from cells.old) }
    ensures behind { drop (from + width) cells.new ≡ drop (from + width) cells.old }
{
    cells.copy_within(from..from + width, to);
}

/// Puts the marked rows side by side at the front. How many they are.
fn bring_forward(cells: &mut [u32], width: usize, marks: &[bool]) -> usize
    requires { length cells.old ≡ length marks.now * width }
    ensures length { length cells.new ≡ length cells.old }
    ensures count { result ≤ length marks.now }
    ensures rows { cut width result (take (result * width) cells.new) ≡ marked marks.now (cut width (length marks.now) cells.old) }
{
    let mut kept = 0;
    for i in 0..marks.len() {
        if marks[i] {
            move_back(cells, i * width, kept * width, width);
            kept += 1;
        }
    }
    kept
}

/// Some cells side by side.
fn piece(cells: &[u32], start: usize, width: usize) -> &[u32]
    requires { start + width ≤ length cells.now }
    ensures { result.now ≡ take width (drop start cells.now) }
{
    &cells[start..start + width]
}
