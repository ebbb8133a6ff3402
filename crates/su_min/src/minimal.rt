//! A tableau with its least set of rows.
ghost use Rattle.std.specs.Prelude.{◌≡◌, ◌^◌, ◌<◌, length, IfOk, MatchResult};
ghost use Rattle.su_tableau.specs.Kinds.{Kinds, IsTyped};
ghost use Rattle.su_min.specs.Kept.{IsMinimised, IsLeastPart};

use crate::kept::kept_mask;
use std::alloc::Global;
use std::marker::{Brand, Model};
use std::sync::ledger::{Blank, Ledger};
use su_base::{List, NoMemory, Steps};
use su_map::{Room, first_prepared};
use su_tableau::{Tableau, full};

/// A tableau with its kept rows and its fold, the first mapping of all rows into the kept ones.
#[derive(Debug, Drop)]
pub struct Minimal {
    tableau: Tableau,
    mask: u64,
    fold: List<u8>,
}

impl Model for Minimal {
    ghost use Rattle.su_min.specs.Kept.{Minimised, IsMinimised};

    ghost Value = { Minimised };

    ghost view = { λ m. record { tableau = m.tableau; mask = m.mask; fold = m.fold } };

    ghost invariant = { λ m. IsMinimised (record { tableau = m.tableau; mask = m.mask; fold = m.fold }) };
}

impl Minimal {
    /// The tableau, with all its rows.
    pub fn tableau(&self) -> &Tableau
        ensures { result.now ≡ self.now.tableau }
    {
        &self.tableau
    }

    /// The kept rows.
    pub fn mask(&self) -> u64
        ensures is { result ≡ self.now.mask }
        ensures within { result < 2 ^ length self.now.tableau.rows }
    {
        self.keeps_its_rules();
        self.mask
    }

    /// For each row the kept row to which it goes.
    pub fn fold(&self) -> &[u8]
        ensures { result.now ≡ self.now.fold }
    {
        self.fold.as_slice()
    }

    /// For proofs: mask and fold are the tableau's. It does nothing.
    pub fn keeps_its_rules(&self)
        ensures { IsMinimised self.now }
    {
        let _ = &self.fold;
    }
}

/// A copy of the row list that the last search found.
fn found_list(alloc: Global, room: &Room) -> Result<List<u8>, NoMemory>
    ensures { IfOk result (λ list. list ≡ room.now.list) }
{
    Ok(List::from_vec(Vec::from_slice(alloc, room.list())?))
}

/// The kept rows and the fold, by searches whose steps are counted in a ledger.
fn kept_and_fold<L: Ledger>(
    alloc: Global,
    t: &Tableau,
    blank: Blank,
) -> Result<(u64, List<u8>), NoMemory>
    requires name { blank.name ≡ L.name }
    requires parts { blank.parts ≡ L.parts }
    requires some { 0 < blank.parts }
    ensures { IfOk result (λ r. IsMinimised (record { tableau = t.now; mask = r.0; fold = r.1 })) }
{
    let mut room = Room::new(alloc, t.row_count(), t.symbols())?;
    let mut steps = Steps::<L>::new(blank);
    let mask = kept_mask(t, &mut room, &mut steps);
    first_prepared(&mut room, t, full(t.row_count()), t, mask, &mut steps);
    Ok((mask, found_list(alloc, &room)?))
}

/// The tableau with its kept rows and its fold; it comes back where memory is wanting. The room of
/// the searches is given back at the end.
pub fn minimise(alloc: Global, t: Tableau) -> Result<Minimal, (Tableau, NoMemory)>
    ensures is { MatchResult result (λ m. m.tableau ≡ t) (λ e. e.0 ≡ t) }
    ensures minimised { IfOk result IsMinimised }
    ensures least { IfOk result (λ m. (kinds : Kinds) → IsTyped kinds m.tableau → IsLeastPart kinds m.tableau m.mask) }
{
    t.keeps_its_rules();
    match kept_and_fold::<Brand>(alloc, &t, Blank::new(1)) {
        Ok((mask, fold)) => Ok(Minimal {
            tableau: t,
            mask,
            fold,
        }),
        Err(e) => Err((t, e)),
    }
}
