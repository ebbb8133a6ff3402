//! What conditions and queries mention: refs, and their variables.
ghost use Rattle.std.specs.Prelude.{◌≡◌, ◌<◌, ◌≤◌, ◌∷◌, ◌++◌, [], true, false, map, flat_map, length, IfOk, OnOk, is_none};
ghost use Rattle.std.specs.List.{list_any, list_all};
ghost use Rattle.su_query.specs.Mentions.{are_columns, mentions, same_variable};
ghost use Rattle.su_query.specs.Refs.{refs_beside, refs_in, refs_of};

use crate::conditions::{Comparison, NamedCond};
use crate::refs::{NamedOperand, Ref};
use std::alloc::Global;
use su_base::{List, NoMemory, Str, copy_name};
use su_where::comparisons;

fn push_ref<'a>(refs: &mut List<&'a Ref>, operand: &'a NamedOperand) -> Result<(), NoMemory>
    ensures { OnOk result (map (λ r. r.now) refs.new ≡ map (λ r. r.now) refs.old ++ refs_in operand.now) }
{
    match operand {
        NamedOperand::Ref(reference) => {
            refs.push(reference)?;
            Ok(())
        }
        NamedOperand::Const(_) => Ok(()),
    }
}

fn push_outputs<'a>(refs: &mut List<&'a Ref>, outputs: &'a [Ref]) -> Result<(), NoMemory>
    ensures { OnOk result (map (λ r. r.now) refs.new ≡ map (λ r. r.now) refs.old ++ outputs.now) }
{
    for output in outputs {
        refs.push(output)?;
    }
    Ok(())
}

fn push_sides<'a>(refs: &mut List<&'a Ref>, compared: &[&'a Comparison]) -> Result<(), NoMemory>
    ensures { OnOk result (map (λ r. r.now) refs.new ≡ map (λ r. r.now) refs.old ++ flat_map refs_beside (map (λ c. c.now) compared.now)) }
{
    for comparison in compared {
        push_ref(refs, &comparison.left)?;
        push_ref(refs, &comparison.right)?;
    }
    Ok(())
}

/// The refs of the outputs, and then those of the comparisons, from left to right.
pub(crate) fn references<'a>(
    alloc: Global,
    outputs: &'a [Ref],
    compared: &[&'a Comparison],
) -> Result<List<&'a Ref>, NoMemory>
    ensures { IfOk result (λ refs. map (λ r. r.now) refs ≡ outputs.now ++ flat_map refs_beside (map (λ c. c.now) compared.now)) }
{
    let mut refs = List::new(alloc);
    push_outputs(&mut refs, outputs)?;
    push_sides(&mut refs, compared)?;
    Ok(refs)
}

/// The refs of the outputs, and then those of the condition, from left to right.
pub(crate) fn all_references<'a>(
    alloc: Global,
    outputs: &'a [Ref],
    cond: &'a NamedCond,
) -> Result<List<&'a Ref>, NoMemory>
    ensures { IfOk result (λ refs. map (λ r. r.now) refs ≡ outputs.now ++ refs_of cond.now) }
{
    let compared = comparisons(alloc, cond)?;
    references(alloc, outputs, compared.as_slice())
}

fn have_no_variables(references: &[&Ref]) -> bool
    ensures { result ≡ list_all (λ r. is_none r.now.variable) references.now }
{
    references.iter().all(|r| r.variable.is_none())
}

/// Whether no ref of the condition has a variable.
pub(crate) fn are_columns(alloc: Global, cond: &NamedCond) -> Result<bool, NoMemory>
    ensures { IfOk result (λ are. are ≡ are_columns cond.now) }
{
    let refs = all_references(alloc, &[], cond)?;
    Ok(have_no_variables(refs.as_slice()))
}

pub(crate) fn is_same(a: &Option<Str>, b: &Option<Str>) -> bool
    ensures { result ≡ same_variable a.now b.now }
{
    match (a, b) {
        (None, None) => true,
        (Some(v), Some(w)) => v.as_str() == w.as_str(),
        _ => false,
    }
}

/// Whether the variable is one of these.
pub(crate) fn is_among(seen: &[Option<Str>], variable: &Option<Str>) -> bool
    ensures { result ≡ list_any (same_variable variable.now) seen.now }
{
    seen.iter().any(|s| is_same(variable, s))
}

/// Adds the variable of the ref, unless it was seen.
fn note(alloc: Global, seen: &mut List<Option<Str>>, reference: &Ref) -> Result<(), NoMemory>
    ensures { OnOk result (seen.new ≡ mentions seen.old (reference.now ∷ [])) }
{
    if is_among(seen.as_slice(), &reference.variable) {
        return Ok(());
    }
    seen.push(copy_name(alloc, &reference.variable)?)?;
    Ok(())
}

/// The variables of the refs, each once, in the order of their first mention.
pub(crate) fn variables(alloc: Global, references: &[&Ref]) -> Result<List<Option<Str>>, NoMemory>
    ensures { IfOk result (λ seen. seen ≡ mentions [] (map (λ r. r.now) references.now)) }
{
    let mut seen = List::new(alloc);
    for reference in references {
        note(alloc, &mut seen, *reference)?;
    }
    Ok(seen)
}

/// Whether the refs have at most 8 variables. No ref behind the ninth variable is looked at.
pub(crate) fn have_few_variables(alloc: Global, references: &[&Ref]) -> Result<bool, NoMemory>
    ensures few { IfOk result (λ few. few ≡ true → length (mentions [] (map (λ r. r.now) references.now)) ≤ 8) }
    ensures many { IfOk result (λ few. few ≡ false → 8 < length (mentions [] (map (λ r. r.now) references.now))) }
{
    let mut seen = List::new(alloc);
    for reference in references {
        note(alloc, &mut seen, *reference)?;
        if seen.len() > 8 {
            return Ok(false);
        }
    }
    Ok(true)
}
