//! Comparisons between places and constants.
ghost use Rattle.std.specs.Prelude.{◌≡◌, IfOk, length, if◌then◌else◌};
ghost use Rattle.su_where.specs.Truth.{value_of_operand, holds};
ghost use Rattle.su_where.specs.Places.{IsBelow, HasPlacesBelow};
ghost use Rattle.su_where.specs.Disjunct.{opposite_of};

use crate::operators::Op;
use std::alloc::Global;
use su_base::{NoMemory, Row, Value};

/// What a comparison compares.
#[derive(Debug, Drop)]
pub enum Operand {
    /// The value at this place of a row, from 0.
    Place(u16),
    /// This very value.
    Const(Value),
}

impl Operand {
    /// The value that the operand stands for.
    pub fn value<'a>(&'a self, values: &'a Row) -> &'a Value
        requires { IsBelow (length values.now) self.now }
        ensures { result.now ≡ value_of_operand self.now values.now }
    {
        match self {
            Operand::Place(i) => values.get(*i as usize),
            Operand::Const(value) => value,
        }
    }

    /// An equal operand of its own.
    pub fn copy(&self, alloc: Global) -> Result<Operand, NoMemory>
        ensures { IfOk result (λ o. o ≡ self.now) }
    {
        match self {
            Operand::Place(i) => Ok(Operand::Place(*i)),
            Operand::Const(value) => Ok(Operand::Const(value.copy(alloc)?)),
        }
    }
}

/// One comparison.
#[derive(Debug, Drop)]
pub struct Literal {
    pub left: Operand,
    pub op: Op,
    pub right: Operand,
}

impl Literal {
    /// Whether the comparison holds of the values.
    pub fn holds(&self, values: &Row) -> bool
        requires { HasPlacesBelow (length values.now) self.now }
        ensures { result ≡ holds self.now values.now }
    {
        self.op
            .compares(self.left.value(values), self.right.value(values))
    }

    /// An equal comparison of its own.
    pub fn copy(&self, alloc: Global) -> Result<Literal, NoMemory>
        ensures { IfOk result (λ l. l ≡ self.now) }
    {
        Ok(Literal {
            left: self.left.copy(alloc)?,
            op: self.op,
            right: self.right.copy(alloc)?,
        })
    }

    /// A copy or, if `negated`, the comparison that holds exactly where this one doesn't.
    pub(crate) fn under(&self, alloc: Global, negated: bool) -> Result<Literal, NoMemory>
        ensures { IfOk result (λ l. l ≡ (if negated then opposite_of self.now else self.now)) }
    {
        let mut made = self.copy(alloc)?;
        if negated {
            made.op = made.op.complement();
        }
        Ok(made)
    }
}
