//! The classes of a disjunct's constants and of the pairs of variables and attributes.
ghost use Rattle.std.specs.Prelude.{◌≡◌, ◌↔◌, ℕ, ◌+◌, ◌*◌, ◌<◌, ◌≤◌, ◌^◌, IsTrue, All, length, IfOk, OnOk};
ghost use Rattle.su_where.specs.Places.{IsBelow as IsPlaceBelow};
ghost use Rattle.su_tableau.specs.declared.symbols.Sym.TheVariants.{Var, Const};
ghost use Rattle.su_query.specs.declared.places.Place.{Place as APlace};
ghost use Rattle.su_classes.specs.Items.{IsPlacedBelow};
ghost use Rattle.su_classes.specs.Tables.{rep, IsLeastTable};
ghost use Rattle.su_classes.specs.Symbols.{symbol_at as symbol_numbered};
ghost use Rattle.su_steps.specs.PairSymbols.{pair, place_symbol, operand_symbol};
ghost use Rattle.su_steps.specs.inside.Numbers.{class_name, AreClasses};

use crate::constants::place;
use std::alloc::Global;
use su_base::{List, NoMemory, Value};
use su_classes::{Placed, Together, symbol_at};
use su_fd::Fd;
use su_query::Place;
use su_tableau::Sym;
use su_where::Operand;

/// The constants of a disjunct's equalities, its equalities, and a table of representatives: the
/// constants are the first items, the pairs follow by variable and attribute. The table is used again
/// for each choice.
#[derive(Drop)]
pub struct Classes {
    pub constants: List<Value>,
    pub equal: List<Together>,
    pub table: Vec<usize>,
    pub width: u8,
}

impl Classes {
    /// Makes the least classes in which the sides of each equality are together and the dependencies
    /// are kept on the rows.
    pub fn close(&mut self, alloc: Global, fds: &[Fd], rows: &[Placed]) -> Result<(), NoMemory>
        requires within { All (λ e. (e.left < length self.old.table.items) × (e.right < length self.old.table.items)) self.old.equal }
        requires cells { All (IsPlacedBelow (length self.old.table.items)) rows.now }
        ensures constants { OnOk result (self.new.constants ≡ self.old.constants) }
        ensures equal { OnOk result (self.new.equal ≡ self.old.equal) }
        ensures width { OnOk result (self.new.width ≡ self.old.width) }
        ensures length { OnOk result (length self.new.table.items ≡ length self.old.table.items) }
        ensures least { OnOk result (IsLeastTable fds.now rows.now self.old.equal self.new.table.items) }
    {
        su_classes::close(alloc, &mut self.table, self.equal.as_slice(), fds, rows)
    }

    /// Whether two constants are in one class.
    pub fn clash(&self) -> bool
        requires { length self.now.constants ≤ length self.now.table.items }
        ensures { IsTrue result ↔ ((i : ℕ) × (i < length self.now.constants) × (rep self.now.table.items i < i)) }
    {
        for i in 0..self.constants.len() {
            if self.table[i] < i {
                return true;
            }
        }
        false
    }

    /// The name of an item.
    fn item_name(&self, alloc: Global, item: usize) -> Result<Sym, NoMemory>
        requires item { item < length self.now.table.items }
        requires below { rep self.now.table.items item < length self.now.constants + 2 ^ 32 }
        ensures { IfOk result (λ s. s ≡ symbol_numbered self.now.constants (rep self.now.table.items item)) }
    {
        symbol_at(alloc, self.constants.as_slice(), self.table[item])
    }

    /// The name of a pair.
    pub fn pair_name(&self, alloc: Global, variables: u8, v: u8, a: u8) -> Result<Sym, NoMemory>
        requires classes { AreClasses variables self.now }
        requires variable { v < variables }
        requires attribute { a < self.now.width }
        ensures { IfOk result (λ s. s ≡ class_name (variables * self.now.width) self.now (Var (pair self.now.width v a))) }
    {
        let item = self.constants.len() + v as usize * self.width as usize + a as usize;
        symbol_at(alloc, self.constants.as_slice(), self.table[item])
    }

    /// The name of a constant.
    fn constant_name(&self, alloc: Global, variables: u8, value: &Value) -> Result<Sym, NoMemory>
        requires classes { AreClasses variables self.now }
        ensures { IfOk result (λ s. s ≡ class_name (variables * self.now.width) self.now (Const value.now)) }
    {
        let item = place(self.constants.as_slice(), value);
        if item < self.constants.len() {
            return self.item_name(alloc, item);
        }
        Ok(Sym::Const(value.copy(alloc)?))
    }

    /// The name of a place, by the place's number.
    pub fn place_name(
        &self,
        alloc: Global,
        variables: u8,
        places: &[Place],
        i: u16,
    ) -> Result<Sym, NoMemory>
        requires classes { AreClasses variables self.now }
        requires place { i < length places.now }
        requires pairs { All (λ p. (p.variable < variables) × (p.attribute < self.now.width)) places.now }
        ensures { IfOk result (λ s. s ≡ class_name (variables * self.now.width) self.now (place_symbol self.now.width places.now i)) }
    {
        let place = places[i as usize];
        self.pair_name(alloc, variables, place.variable, place.attribute)
    }

    /// The name of a side of a comparison.
    pub fn operand_name(
        &self,
        alloc: Global,
        variables: u8,
        places: &[Place],
        operand: &Operand,
    ) -> Result<Sym, NoMemory>
        requires classes { AreClasses variables self.now }
        requires place { IsPlaceBelow (length places.now) operand.now }
        requires pairs { All (λ p. (p.variable < variables) × (p.attribute < self.now.width)) places.now }
        ensures { IfOk result (λ s. s ≡ class_name (variables * self.now.width) self.now (operand_symbol self.now.width places.now operand.now)) }
    {
        match operand {
            Operand::Place(i) => self.place_name(alloc, variables, places, *i),
            Operand::Const(value) => self.constant_name(alloc, variables, value),
        }
    }
}
