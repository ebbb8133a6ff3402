//! Symbols of a tableau.
ghost use Rattle.std.specs.Prelude.{◌≡◌, ◌↔◌, IsTrue, IfOk};

use std::alloc::Global;
use su_base::{NoMemory, Value};

/// A constant, or a variable by its number.
#[derive(Debug, Drop)]
pub enum Sym {
    Const(Value),
    Var(u32),
}

impl Sym {
    /// Whether the two are one symbol: equal constants, or one variable.
    #[tactic(auto, using(crate::proofs::Same::value_same))]
    pub fn same(&self, other: &Sym) -> bool
        ensures { IsTrue result ↔ (self.now ≡ other.now) }
    {
        match (self, other) {
            (Sym::Const(a), Sym::Const(b)) => a == b,
            (Sym::Var(a), Sym::Var(b)) => a == b,
            _ => false,
        }
    }

    /// An equal symbol of its own.
    pub fn copy(&self, alloc: Global) -> Result<Sym, NoMemory>
        ensures { IfOk result (λ s. s ≡ self.now) }
    {
        match self {
            Sym::Const(value) => Ok(Sym::Const(value.copy(alloc)?)),
            Sym::Var(k) => Ok(Sym::Var(*k)),
        }
    }
}
