//! Rows of codes, each once.
ghost use Rattle.std.specs.Prelude.{◌≡◌, ◌↔◌, ◌⊎◌, ℕ, ◌%◌, List, [], length, Contains, IsTrue, IfOk, OnOk};
ghost use Rattle.su_base.specs.Lists.{AllDiffer};
ghost use Rattle.su_reduce.specs.Chains.{hash_of};
ghost use Rattle.su_reduce.specs.Sheets.{pick};
ghost use Rattle.su_reduce.specs.inside.Hashed.{IsHashed};

use crate::hashes::{bucket, fill};
use crate::sheets::Sheet;
use std::alloc::{AllocError, Global};
use std::marker::Model;

/// Rows of one width, each once, with a hash table of their positions.
#[derive(Drop)]
pub struct Distinct {
    rows: Sheet,
    places: Vec<usize>,
    heads: Vec<usize>,
    next: Vec<usize>,
}

impl Model for Distinct {
    ghost use Rattle.su_reduce.specs.Sheets.{Rows};
    ghost use Rattle.su_reduce.specs.inside.Hashed.{IsHashed};

    ghost Value = { Rows };

    ghost view = { λ d. d.rows };

    ghost invariant = { λ d. IsHashed d.rows d.places.items d.heads.items d.next.items };
}

impl Distinct {
    /// No rows.
    pub fn new(alloc: Global, width: usize) -> Result<Distinct, AllocError>
        ensures { IfOk result (λ d. d ≡ record { width = width; rows = [] }) }
    {
        let mut places = Vec::with_capacity(alloc, width)?;
        for place in 0..width {
            places.push(place)?;
        }
        Ok(Distinct {
            rows: Sheet::new(alloc, width),
            places,
            heads: vec![in alloc; 0; 64]?,
            next: Vec::new(alloc),
        })
    }

    /// How many rows there are.
    pub fn len(&self) -> usize
        ensures { result ≡ length self.now.rows }
    {
        self.rows.len()
    }

    /// Whether the row is there.
    pub fn has(&self, row: &[u32]) -> bool
        requires { length row.now ≡ self.now.width }
        ensures { IsTrue result ↔ Contains self.now.rows row.now }
    {
        let h = bucket(row, &self.places, self.heads.len());
        is_among(&self.rows, &self.places, &self.heads, &self.next, row, h)
    }

    /// The rows.
    pub fn into_rows(self) -> Sheet
        ensures rows { result ≡ self }
        ensures differ { AllDiffer result.rows }
    {
        let Distinct {
            rows,
            places: _,
            heads: _,
            next: _,
        } = self;
        rows
    }

    /// More buckets, where there are as many rows as buckets.
    fn make_room(&mut self, alloc: Global) -> Result<(), AllocError>
        ensures { self.new ≡ self.old }
    {
        if self.rows.len() < self.heads.len() {
            return Ok(());
        }
        let mut heads = vec![in alloc; 0; self.heads.len().saturating_mul(4)]?;
        self.next.truncate(self.rows.len());
        fill(&self.rows, &self.places, &mut heads, &mut self.next);
        self.heads = heads;
        Ok(())
    }

    /// Puts the row in, where it isn't there.
    pub fn add(&mut self, alloc: Global, row: &[u32]) -> Result<(), AllocError>
        requires { length row.now ≡ self.old.width }
        ensures width { self.new.width ≡ self.old.width }
        ensures kept { (r : List ℕ) → Contains self.old.rows r → Contains self.new.rows r }
        ensures had { OnOk result (Contains self.new.rows row.now) }
        ensures only { (r : List ℕ) → Contains self.new.rows r → Contains self.old.rows r ⊎ (row.now ≡ r) }
    {
        self.make_room(alloc)?;
        let h = bucket(row, &self.places, self.heads.len());
        if is_among(&self.rows, &self.places, &self.heads, &self.next, row, h) {
            return Ok(());
        }
        self.next.truncate(self.rows.len());
        self.next.push(self.heads[h])?;
        self.rows.push(row)?;
        self.heads[h] = self.rows.len();
        Ok(())
    }
}

/// Whether the row is among those of bucket `h`, which is its own.
fn is_among(
    rows: &Sheet,
    places: &[usize],
    heads: &[usize],
    next: &[usize],
    row: &[u32],
    h: usize,
) -> bool
    requires hashed { IsHashed rows.now places.now heads.now next.now }
    requires bucket { h ≡ hash_of (pick places.now row.now) % length heads.now }
    ensures { IsTrue result ↔ Contains rows.now.rows row.now }
{
    let mut at = heads[h];
    while at > 0 {
        if same_row(rows.row(at - 1), row) {
            return true;
        }
        at = next[at - 1];
    }
    false
}

/// Whether two rows are one.
fn same_row(a: &[u32], b: &[u32]) -> bool
    ensures { IsTrue result ↔ (a.now ≡ b.now) }
{
    a == b
}
