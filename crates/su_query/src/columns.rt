//! The names of a condition on a relation as numbers.
ghost use Rattle.std.specs.Prelude.{◌≡◌, ◌⊎◌, ◌<◌, ◌≤◌, true, [], None, length, map, IfOk, IfErr, OnOk};
ghost use Rattle.su_where.specs.Truth.{comparisons_of};
ghost use Rattle.su_query.specs.Mentions.{are_columns};
ghost use Rattle.su_query.specs.NumberedConditions.{with_columns};
ghost use Rattle.su_query.specs.Scopes.{names_in, first_unknown};
ghost use Rattle.su_query.specs.Places.{number_in};
ghost use Rattle.su_query.specs.Lookup.{IsColumnCondition, IsColumnRefusal};
ghost use Rattle.su_query.specs.Ranges.{IsOnColumns};
ghost use Rattle.su_query.specs.inside.Unknowns.{IsRefRefusal};

use crate::conditions::NamedCond;
use crate::faults::QueryFault;
use crate::kinds::check;
use crate::lookups::look_up;
use crate::mentions::all_references;
use crate::numbering::{Numbers, numbered};
use crate::refs::Ref;
use crate::scopes::Scope;
use std::alloc::Global;
use su_base::{Column, Kind, List, NoMemory};
use su_schema::Schema;
use su_where::Cond;

/// The number of each ref's column, or the first name that is no column. Each name is looked up once.
fn column_numbers(
    alloc: Global,
    schema: &Schema,
    relation: u8,
    references: &[&Ref],
) -> Result<List<u16>, QueryFault>
    requires { relation < length schema.now.relations }
    ensures numbers { IfOk result (λ numbers. numbers ≡ map (number_in schema.now (Scope.Columns relation) [] []) (map (λ r. r.now) references.now)) }
    ensures known { OnOk result (first_unknown (names_in schema.now (Scope.Columns relation)) (map (λ r. r.now) references.now) ≡ None) }
    ensures refused { IfErr result (IsRefRefusal schema.now (Scope.Columns relation) (map (λ r. r.now) references.now)) }
{
    let mut numbers = List::new(alloc);
    for reference in references {
        match look_up(alloc, schema, Scope::Columns(relation), *reference) {
            Ok(number) => numbers.push(number as u16)?,
            Err(fault) => return Err(fault),
        }
    }
    Ok(numbers)
}

/// The kinds of the columns.
fn kinds_of(alloc: Global, columns: &[Column]) -> Result<List<Kind>, NoMemory>
    ensures { IfOk result (λ kinds. kinds ≡ map (λ c. c.kind) columns.now) }
{
    let mut kinds = List::new(alloc);
    for column in columns {
        kinds.push(column.kind)?;
    }
    Ok(kinds)
}

/// The condition with the numbers of the relation's columns.
///
/// A name that is no column comes before a comparison of two kinds, and of each the first by place.
pub fn resolve_columns(
    alloc: Global,
    schema: &Schema,
    relation: u8,
    cond: &NamedCond,
) -> Result<Cond, QueryFault>
    requires relation { relation < length schema.now.relations }
    requires few { length (comparisons_of cond.now) ≤ 256 }
    requires columns { are_columns cond.now ≡ true }
    ensures numbers { IfOk result (λ c. c ≡ with_columns schema.now relation cond.now) }
    ensures known { OnOk result (IsColumnCondition schema.now relation cond.now) }
    ensures in_range { IfOk result (λ c. IsOnColumns schema.now relation c) }
    ensures refused { IfErr result (λ fault. (fault ≡ QueryFault.NoMemory) ⊎ IsColumnRefusal schema.now relation cond.now fault) }
{
    let refs = all_references(alloc, &[], cond)?;
    let numbers = match column_numbers(alloc, schema, relation, refs.as_slice()) {
        Ok(numbers) => numbers,
        Err(fault) => return Err(fault),
    };
    let cond = numbered(alloc, &mut Numbers::new(numbers.as_slice()), cond)?;
    let kinds = kinds_of(alloc, schema.columns(relation))?;
    match check(alloc, kinds.as_slice(), &cond) {
        Ok(()) => Ok(cond),
        Err(fault) => Err(fault),
    }
}
