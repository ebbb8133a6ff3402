//! Conditions with numbers in place of refs.
ghost use Rattle.std.specs.Prelude.{◌≡◌, ◌<◌, ◌∷◌, length, map, flat_map, IfOk};
ghost use Rattle.su_query.specs.inside.RefNumbers.{HasNumbers, Takes};
ghost use Rattle.su_query.specs.Refs.{refs_in, refs_beside, refs_of};
ghost use Rattle.su_query.specs.NumberedConditions.{literal_of, numbered, numbered_operand};

use crate::conditions::{Comparison, NamedCond};
use crate::refs::NamedOperand;
use std::alloc::Global;
use std::marker::Model;
use su_base::{Boxed, List, NoMemory};
use su_where::{Cond, Literal, Operand};

/// The numbers of refs that were not met yet, in the order of the refs.
#[derive(Drop)]
pub(crate) struct Numbers<'a> {
    left: &'a [u16],
}

impl<'a> Model for Numbers<'a> {
    ghost use Rattle.std.specs.Prelude.{ℕ, List};

    ghost Value = { List ℕ };

    ghost view = { λ n. n.left.now };
}

impl<'a> Numbers<'a> {
    pub(crate) fn new(numbers: &'a [u16]) -> Numbers<'a>
        ensures { result ≡ numbers.now }
    {
        Numbers { left: numbers }
    }

    /// The next number.
    fn next(&mut self) -> u16
        requires { 0 < length self.old }
        ensures { self.old ≡ result ∷ self.new }
    {
        let number = self.left[0];
        self.left = &self.left[1..];
        number
    }
}

fn numbered_operand(
    alloc: Global,
    numbers: &mut Numbers,
    operand: &NamedOperand,
) -> Result<Operand, NoMemory>
    requires { HasNumbers (refs_in operand.now) numbers.old }
    ensures { IfOk result (λ o. Takes (refs_in operand.now) numbers.old numbers.new (λ number. numbered_operand number operand.now) o) }
{
    match operand {
        NamedOperand::Ref(_) => Ok(Operand::Place(numbers.next())),
        NamedOperand::Const(value) => Ok(Operand::Const(value.copy(alloc)?)),
    }
}

fn literal(
    alloc: Global,
    numbers: &mut Numbers,
    comparison: &Comparison,
) -> Result<Literal, NoMemory>
    requires { HasNumbers (refs_beside comparison.now) numbers.old }
    ensures { IfOk result (λ l. Takes (refs_beside comparison.now) numbers.old numbers.new (λ number. literal_of number comparison.now) l) }
{
    Ok(Literal {
        left: numbered_operand(alloc, numbers, &comparison.left)?,
        op: comparison.op,
        right: numbered_operand(alloc, numbers, &comparison.right)?,
    })
}

/// The condition with the next numbers in place of its refs.
#[cycle(numbered)]
#[tactic(auto, using(crate::proofs::Found::layers))]
pub(crate) fn numbered(
    alloc: Global,
    numbers: &mut Numbers,
    cond: &NamedCond,
) -> Result<Cond, NoMemory>
    requires { HasNumbers (refs_of cond.now) numbers.old }
    ensures { IfOk result (λ c. Takes (refs_of cond.now) numbers.old numbers.new (λ number. numbered number cond.now) c) }
{
    match cond {
        NamedCond::Compare(comparison) => Ok(Cond::Compare(literal(alloc, numbers, comparison)?)),
        NamedCond::Not(part) => Ok(Cond::Not(Boxed::new(
            alloc,
            numbered(alloc, numbers, part.get())?,
        )?)),
        NamedCond::All(parts) => Ok(Cond::All(numbered_all(alloc, numbers, parts.as_slice())?)),
        NamedCond::Any(parts) => Ok(Cond::Any(numbered_all(alloc, numbers, parts.as_slice())?)),
    }
}

#[cycle(numbered)]
fn numbered_all(
    alloc: Global,
    numbers: &mut Numbers,
    parts: &[NamedCond],
) -> Result<List<Cond>, NoMemory>
    requires { HasNumbers (flat_map refs_of parts.now) numbers.old }
    ensures { IfOk result (λ cs. Takes (flat_map refs_of parts.now) numbers.old numbers.new (λ number. map (numbered number) parts.now) cs) }
{
    let mut conds = List::new(alloc);
    for part in parts {
        conds.push(numbered(alloc, numbers, part)?)?;
    }
    Ok(conds)
}
