//! Whether a term of the one query is settled by the terms of the other.
ghost use Rattle.std.specs.Prelude.{◌≡◌, ◌<◌, ◌≤◌, ℕ, length, All, IfOk, OnOk, MatchOption};
ghost use Rattle.su_tableau.specs.Mapping.{Maps};
ghost use Rattle.su_chase.specs.Chased.{IsFdBelow};
ghost use Rattle.su_compare.specs.Settled.{tab_at, IsFound};
ghost use Rattle.su_compare.specs.inside.Settlements.{HasRoomFor, AreAlike, IsSettlement};

use crate::verdicts::Found;
use std::alloc::Global;
use std::marker::Brand;
use std::sync::ledger::{Blank, Ledger};
use su_base::{NoMemory, Steps};
use su_chase::{Chased, chase};
use su_fd::Fd;
use su_map::{Room, certify, first};
use su_steps::Term;
use su_tableau::{Tableau, full};

/// Why a term is settled, or its chased tableau, into which no term maps.
#[derive(Debug, Drop)]
pub enum Settled {
    By(Option<Found>),
    Open(Tableau),
}

/// The first of the terms that maps into the tableau.
fn found_counted<L: Ledger>(
    alloc: Global,
    room: &mut Room,
    terms: &[Term],
    c: &Tableau,
    blank: Blank,
) -> Result<Option<Found>, NoMemory>
    requires name { blank.name ≡ L.name }
    requires parts { blank.parts ≡ L.parts }
    requires some { 0 < blank.parts }
    requires few { length terms.now ≤ 256 }
    requires room { HasRoomFor terms.now room.old }
    requires alike { AreAlike c.now terms.now }
    ensures found { IfOk result (λ f. MatchOption f ((j : ℕ) → j < length terms.now → ¬ Maps (tab_at terms.now j) c.now) (IsFound terms.now c.now)) }
    ensures room { OnOk result (HasRoomFor terms.now room.new) }
{
    c.keeps_its_rules();
    let mut steps = Steps::<L>::new(blank);
    let to = full(c.row_count());
    for j in 0..terms.len() {
        let s = &terms[j].tableau;
        s.keeps_its_rules();
        let from = full(s.row_count());
        if first(room, s, from, c, to, &mut steps) {
            let mapping = certify(alloc, room, s, from, c, to)?;
            return Ok(Some(Found {
                term: j as u16,
                mapping,
            }));
        }
    }
    Ok(None)
}

/// The first of the terms that maps into the tableau, by the first mapping of all rows into all rows.
fn found(
    alloc: Global,
    room: &mut Room,
    terms: &[Term],
    c: &Tableau,
) -> Result<Option<Found>, NoMemory>
    requires few { length terms.now ≤ 256 }
    requires room { HasRoomFor terms.now room.old }
    requires alike { AreAlike c.now terms.now }
    ensures found { IfOk result (λ f. MatchOption f ((j : ℕ) → j < length terms.now → ¬ Maps (tab_at terms.now j) c.now) (IsFound terms.now c.now)) }
    ensures room { OnOk result (HasRoomFor terms.now room.new) }
{
    found_counted::<Brand>(alloc, room, terms, c, Blank::new(1))
}

/// Whether the tableau is settled by the terms: it is chased, and then each of them is tried.
pub fn settle(
    alloc: Global,
    room: &mut Room,
    fds: &[Fd],
    t: &Tableau,
    terms: &[Term],
) -> Result<Settled, NoMemory>
    requires few { length terms.now ≤ 256 }
    requires room { HasRoomFor terms.now room.old }
    requires alike { AreAlike t.now terms.now }
    requires below { All (IsFdBelow t.now.width) fds.now }
    ensures settled { IfOk result (IsSettlement fds.now terms.now t.now) }
    ensures room { OnOk result (HasRoomFor terms.now room.new) }
{
    match chase(alloc, fds, t)? {
        Chased::Clash {
            less: _,
            greater: _,
        } => Ok(Settled::By(None)),
        Chased::Closed(c) => match found(alloc, room, terms, &c)? {
            Some(f) => Ok(Settled::By(Some(f))),
            None => Ok(Settled::Open(c)),
        },
    }
}
