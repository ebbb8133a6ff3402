//! Where two lists of symbols hold one symbol.
ghost use Rattle.std.specs.Prelude.{◌≡◌, ◌<◌, ◌↔◌, ◌⊎◌, IfOk, OnOk, IsTrue, length};
ghost use Rattle.su_refute.specs.inside.Nets.{AreWithin, AreShared, AgreeInPlaces, AddsPlaces};

use std::alloc::Global;
use su_base::{List, NoMemory};
use su_tableau::Sym;

/// A place in a list, and a place in another.
#[derive(Clone, Copy, Debug, Drop)]
pub struct Places {
    pub first: usize,
    pub second: usize,
}

/// Adds the places of the symbol, which stands at `first`.
fn add_places(places: &mut List<Places>, first: usize, x: &Sym, ys: &[Sym]) -> Result<(), NoMemory>
    ensures { OnOk result (AddsPlaces places.old first x.now ys.now places.new) }
{
    for second in 0..ys.len() {
        if x.same(&ys[second]) {
            places.push(Places { first, second })?;
        }
    }
    Ok(())
}

/// The places at which the lists hold one symbol.
pub fn shared(alloc: Global, xs: &[Sym], ys: &[Sym]) -> Result<List<Places>, NoMemory>
    ensures { IfOk result (λ places. AreShared xs.now ys.now places) }
{
    let mut places = List::new(alloc);
    for first in 0..xs.len() {
        add_places(&mut places, first, &xs[first], ys)?;
    }
    Ok(places)
}

/// Whether the lists hold one symbol at each of the places.
pub fn agree_at(places: &[Places], us: &[Sym], vs: &[Sym]) -> bool
    requires { AreWithin (length us.now) (length vs.now) places.now }
    ensures { IsTrue result ↔ AgreeInPlaces places.now us.now vs.now }
{
    for at in places {
        if !us[at.first].same(&vs[at.second]) {
            return false;
        }
    }
    true
}
