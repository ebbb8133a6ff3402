//! The limits of a statement: 8 variables, 128 outputs, 256 comparisons, tried in this order.
ghost use Rattle.std.specs.Prelude.{◌≡◌, ◌⊎◌, ◌<◌, ◌≤◌, true, false, [], map, OnOk, IfOk, IfErr};
ghost use Rattle.su_where.specs.declared.conditions.Condition.TheVariants.{All};
ghost use Rattle.su_query.specs.Refs.{NamedCond as ACond};
ghost use Rattle.su_query.specs.Limits.{AreFew, HasFew, Passes, PartsPass, plain_ref, variable_count, parts_of};
ghost use Rattle.su_query.specs.inside.CondComparisons.{HasComparisons};

use crate::conditions::{Comparison, NamedCond};
use crate::faults::{QueryFault, QueryLimit};
use crate::mentions::{have_few_variables, references};
use crate::refs::Ref;
use crate::statements::{Query, Statement};
use std::alloc::Global;
use su_base::{NoMemory, Str};
use su_where::comparisons;

fn has_few_variables(
    alloc: Global,
    outputs: &[Ref],
    compared: &[&Comparison],
) -> Result<bool, NoMemory>
    ensures few { IfOk result (λ few. (cond : ACond) → HasComparisons cond compared.now → few ≡ true → variable_count outputs.now cond ≤ 8) }
    ensures many { IfOk result (λ few. (cond : ACond) → HasComparisons cond compared.now → few ≡ false → 8 < variable_count outputs.now cond) }
{
    let refs = references(alloc, outputs, compared)?;
    have_few_variables(alloc, refs.as_slice())
}

fn check(alloc: Global, outputs: &[Ref], cond: &NamedCond) -> Result<(), QueryFault>
    ensures few { OnOk result (AreFew outputs.now cond.now) }
    ensures passed { IfErr result (λ fault. (fault ≡ QueryFault.NoMemory) ⊎ Passes outputs.now cond.now fault) }
{
    let compared = comparisons(alloc, cond)?;
    if !has_few_variables(alloc, outputs, compared.as_slice())? {
        return Err(QueryFault::Limit(QueryLimit::Variables));
    }
    if outputs.len() > 128 {
        return Err(QueryFault::Limit(QueryLimit::Outputs));
    }
    if compared.len() > 256 {
        return Err(QueryFault::Limit(QueryLimit::Comparisons));
    }
    Ok(())
}

fn check_query(alloc: Global, query: &Query) -> Result<(), QueryFault>
    ensures few { OnOk result (AreFew query.now.outputs query.now.cond) }
    ensures passed { IfErr result (λ fault. (fault ≡ QueryFault.NoMemory) ⊎ Passes query.now.outputs query.now.cond fault) }
{
    check(alloc, query.outputs.as_slice(), &query.cond)
}

/// A window's names have no variables, and nothing is compared.
fn check_names(names: &[Str]) -> Result<(), QueryFault>
    ensures few { OnOk result (AreFew (map plain_ref names.now) (All [])) }
    ensures passed { IfErr result (Passes (map plain_ref names.now) (All [])) }
{
    if names.len() > 128 {
        return Err(QueryFault::Limit(QueryLimit::Outputs));
    }
    Ok(())
}

/// Whether each part of the statement keeps the limits, and if not, the first that the first such part passes.
pub(crate) fn check_limits(alloc: Global, statement: &Statement) -> Result<(), QueryFault>
    ensures few { OnOk result (HasFew statement.now) }
    ensures passed { IfErr result (λ fault. (fault ≡ QueryFault.NoMemory) ⊎ PartsPass (parts_of statement.now) fault) }
{
    match statement {
        Statement::Retrieve(query) => check_query(alloc, query),
        Statement::Explain(query) => check_query(alloc, query),
        Statement::Certify(query) => check_query(alloc, query),
        Statement::Support(query) => check_query(alloc, query),
        Statement::DeleteWhere { relation: _, cond } => check(alloc, &[], cond),
        Statement::Compare { first, second } => {
            check_query(alloc, first)?;
            check_query(alloc, second)
        }
        Statement::Window { attributes } => check_names(attributes.as_slice()),
        _ => Ok(()),
    }
}
