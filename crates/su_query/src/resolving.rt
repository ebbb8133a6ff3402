//! Queries over numbers.
ghost use Rattle.std.specs.Prelude.{◌≡◌, ◌⊎◌, ℕ, map, IfOk, IfErr, OnOk};
ghost use Rattle.su_query.specs.declared.refs.Ref.{Ref as ARef};
ghost use Rattle.su_query.specs.NumberedConditions.{numbered, resolved_of};
ghost use Rattle.su_query.specs.Lookup.{IsKnownQuery, IsQueryRefusal};
ghost use Rattle.su_query.specs.Mentions.{all_refs};
ghost use Rattle.su_query.specs.Limits.{AreFew};
ghost use Rattle.su_query.specs.Ranges.{IsResolved};
ghost use Rattle.su_query.specs.inside.RefNumbers.{HasNumbers};

use crate::faults::QueryFault;
use crate::kinds::check;
use crate::mentions::{all_references, variables};
use crate::numbering::{Numbers, numbered};
use crate::places::{Place, Placed, kinds_of, place_all};
use crate::statements::Query;
use std::alloc::Global;
use su_base::{List, NoMemory, Str};
use su_schema::Schema;
use su_where::Cond;

/// A query whose names are numbers. Variables and places stand in the order of their first mention,
/// the outputs first; an output and a `Place` of the condition are the number of a place.
#[derive(Debug, Drop)]
pub struct Resolved {
    pub variables: List<Option<Str>>,
    pub places: List<Place>,
    pub outputs: List<u16>,
    pub cond: Cond,
}

/// The query over numbers.
///
/// A name that is no attribute comes before a comparison of two kinds, and of each the first by
/// place, the outputs before the condition.
pub fn resolve(alloc: Global, schema: &Schema, query: &Query) -> Result<Resolved, QueryFault>
    requires { AreFew query.now.outputs query.now.cond }
    ensures resolved { IfOk result (λ r. r ≡ resolved_of schema.now query.now) }
    ensures known { OnOk result (IsKnownQuery schema.now query.now) }
    ensures in_range { IfOk result (λ r. IsResolved schema.now r) }
    ensures refused { IfErr result (λ fault. (fault ≡ QueryFault.NoMemory) ⊎ IsQueryRefusal schema.now query.now fault) }
{
    let refs = all_references(alloc, query.outputs.as_slice(), &query.cond)?;
    let variables = variables(alloc, refs.as_slice())?;
    let placed = match place_all(alloc, schema, variables.as_slice(), refs.as_slice()) {
        Ok(placed) => placed,
        Err(fault) => return Err(fault),
    };
    let resolved = numbered_query(alloc, query, variables, placed)?;
    let kinds = kinds_of(alloc, schema, resolved.places.as_slice())?;
    let cond = &resolved.cond;
    match check(alloc, kinds.as_slice(), cond) {
        Ok(()) => Ok(resolved),
        Err(fault) => Err(fault),
    }
}

/// The query with the numbers of its refs, where these are its variables and places.
fn numbered_query(
    alloc: Global,
    query: &Query,
    variables: List<Option<Str>>,
    placed: Placed,
) -> Result<Resolved, NoMemory>
    requires { HasNumbers (all_refs query.now) placed.numbers }
    ensures variables { IfOk result (λ r. r.variables ≡ variables) }
    ensures places { IfOk result (λ r. r.places ≡ placed.places) }
    ensures outputs { IfOk result (λ r. (number : ARef → ℕ) → placed.numbers ≡ map number (all_refs query.now) → r.outputs ≡ map number query.now.outputs) }
    ensures cond { IfOk result (λ r. (number : ARef → ℕ) → placed.numbers ≡ map number (all_refs query.now) → r.cond ≡ numbered number query.now.cond) }
{
    let Placed { places, numbers } = placed;
    let (front, behind) = numbers.as_slice().split_at(query.outputs.len());
    let outputs = List::from_vec(front.to_vec(alloc)?);
    let cond = numbered(alloc, &mut Numbers::new(behind), &query.cond)?;
    Ok(Resolved {
        variables,
        places,
        outputs,
        cond,
    })
}
