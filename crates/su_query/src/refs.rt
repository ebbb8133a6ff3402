//! References to attributes, and what is compared.
use su_base::{Str, Value};

/// `A`, or `t.A` for the tuple variable `t`. Alone an attribute belongs to the blank variable.
#[derive(Debug)]
pub struct Ref {
    pub variable: Option<Str>,
    pub attribute: Str,
}

/// Not derived, so that it is a single call wherever a ref goes out of scope.
impl Drop for Ref {
    fn drop(self) {
        let Ref {
            variable: _,
            attribute: _,
        } = self;
    }
}

/// What a comparison compares.
#[derive(Debug)]
pub enum NamedOperand {
    Ref(Ref),
    Const(Value),
}

/// Not derived, so that it is a single call wherever an operand goes out of scope.
impl Drop for NamedOperand {
    fn drop(self) {
        match self {
            NamedOperand::Ref(_) => {}
            NamedOperand::Const(_) => {}
        }
    }
}
