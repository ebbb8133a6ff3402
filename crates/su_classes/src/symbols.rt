//! The symbols that items stand for.
ghost use Rattle.std.specs.Prelude.{◌≡◌, ◌+◌, ◌<◌, ◌^◌, length, IfOk};
ghost use Rattle.su_classes.specs.Symbols.{symbol_at as symbol_numbered};

use std::alloc::Global;
use su_base::{NoMemory, Value};
use su_tableau::Sym;

/// The symbol of an item: the constants come first, and the variables follow.
pub fn symbol_at(alloc: Global, constants: &[Value], item: usize) -> Result<Sym, NoMemory>
    requires { item < length constants.now + 2 ^ 32 }
    ensures { IfOk result (λ s. s ≡ symbol_numbered constants.now item) }
{
    if item < constants.len() {
        Ok(Sym::Const(constants[item].copy(alloc)?))
    } else {
        Ok(Sym::Var((item - constants.len()) as u32))
    }
}
