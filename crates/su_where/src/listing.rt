//! The comparisons of a condition, whatever they compare.
ghost use Rattle.std.specs.Prelude.{◌≡◌, ◌++◌, map, flat_map, IfOk, OnOk};
ghost use Rattle.su_where.specs.Truth.{comparisons_of};

use crate::conditions::Condition;
use std::alloc::Global;
use su_base::{List, NoMemory};

/// The comparisons of the condition, from left to right.
pub fn comparisons<'a, C>(alloc: Global, cond: &'a Condition<C>) -> Result<List<&'a C>, NoMemory>
    ensures { IfOk result (λ found. map (λ c. c.now) found ≡ comparisons_of cond.now) }
{
    let mut found = List::new(alloc);
    push_comparisons(&mut found, cond)?;
    Ok(found)
}

#[cycle(comparisons)]
#[tactic(auto, using(crate::proofs::Layers::comparisons_layers))]
fn push_comparisons<'a, C>(out: &mut List<&'a C>, cond: &'a Condition<C>) -> Result<(), NoMemory>
    ensures { OnOk result (map (λ c. c.now) out.new ≡ map (λ c. c.now) out.old ++ comparisons_of cond.now) }
{
    match cond {
        Condition::Compare(comparison) => {
            out.push(comparison)?;
            Ok(())
        }
        Condition::Not(part) => push_comparisons(out, part.get()),
        Condition::All(parts) => push_parts(out, parts.as_slice()),
        Condition::Any(parts) => push_parts(out, parts.as_slice()),
    }
}

#[cycle(comparisons)]
fn push_parts<'a, C>(out: &mut List<&'a C>, parts: &'a [Condition<C>]) -> Result<(), NoMemory>
    ensures { OnOk result (map (λ c. c.now) out.new ≡ map (λ c. c.now) out.old ++ flat_map comparisons_of parts.now) }
{
    for part in parts {
        push_comparisons(out, part)?;
    }
    Ok(())
}
