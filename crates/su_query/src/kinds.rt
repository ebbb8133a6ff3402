//! The first comparison of two kinds, in a condition over numbers.
ghost use Rattle.std.specs.Prelude.{◌≡◌, ◌⊎◌, None, map, length, IfErr, OnOk, ◌∷◌, [], All};
ghost use Rattle.su_where.specs.Truth.{comparisons_of};
ghost use Rattle.su_where.specs.Places.{IsBelow, HasPlacesBelow, Fits};
ghost use Rattle.su_query.specs.Ranges.{operand_kind};
ghost use Rattle.su_query.specs.inside.TwoKinds.{two_kinds, TellsTwoKinds};

use crate::faults::QueryFault;
use std::alloc::Global;
use su_base::Kind;
use su_where::{Cond, Literal, Operand, comparisons};

fn kind(kinds: &[Kind], operand: &Operand) -> Kind
    requires { IsBelow (length kinds.now) operand.now }
    ensures { result ≡ operand_kind kinds.now operand.now }
{
    match operand {
        Operand::Place(number) => kinds[*number as usize],
        Operand::Const(value) => value.kind(),
    }
}

fn differing(kinds: &[Kind], literal: &Literal) -> Option<(Kind, Kind)>
    requires { HasPlacesBelow (length kinds.now) literal.now }
    ensures { result ≡ two_kinds kinds.now (literal.now ∷ []) }
{
    let left = kind(kinds, &literal.left);
    let right = kind(kinds, &literal.right);
    if left == right {
        None
    } else {
        Some((left, right))
    }
}

/// The kinds of the first of the comparisons whose sides differ in kind.
fn differing_among(kinds: &[Kind], compared: &[&Literal]) -> Option<(Kind, Kind)>
    requires { All (HasPlacesBelow (length kinds.now)) (map (λ l. l.now) compared.now) }
    ensures { result ≡ two_kinds kinds.now (map (λ l. l.now) compared.now) }
{
    for literal in compared {
        match differing(kinds, *literal) {
            Some(found) => return Some(found),
            None => {}
        }
    }
    None
}

/// Refuses the first comparison of two kinds, where these are the kinds of what the numbers stand for.
pub(crate) fn check(alloc: Global, kinds: &[Kind], cond: &Cond) -> Result<(), QueryFault>
    requires { Fits (length kinds.now) cond.now }
    ensures alike { OnOk result (two_kinds kinds.now (comparisons_of cond.now) ≡ None) }
    ensures refused { IfErr result (λ fault. (fault ≡ QueryFault.NoMemory) ⊎ TellsTwoKinds kinds.now (comparisons_of cond.now) fault) }
{
    let compared = comparisons(alloc, cond)?;
    match differing_among(kinds, compared.as_slice()) {
        Some((left, right)) => Err(QueryFault::Kinds { left, right }),
        None => Ok(()),
    }
}
