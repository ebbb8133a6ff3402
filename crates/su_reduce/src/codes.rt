//! Values by number, so that rows are lists of numbers while they are joined.
ghost use Rattle.std.specs.Prelude.{◌≡◌, ◌⊎◌, [], ◌∷◌, ◌++◌, pos, get_or, IfOk, slice_get};
ghost use Rattle.su_base.specs.declared.values.Value.TheVariants.{Int};
ghost use Rattle.su_reduce.specs.Codes.{AreApart, Extends};

use indexmap::IndexSet;
use std::alloc::{AllocError, Global};
use std::marker::Model;
use su_base::Value;

/// Values, each once. The code of a value is its position.
#[derive(Drop)]
pub struct Codes {
    values: IndexSet<Value>,
    zero: Value,
}

impl Model for Codes {
    ghost use Rattle.std.specs.Prelude.{◌≡◌, List, pos};
    ghost use Rattle.su_base.specs.declared.values.Value.{Value as AValue};
    ghost use Rattle.su_base.specs.declared.values.Value.TheVariants.{Int};

    ghost Value = { List AValue };

    ghost view = { λ c. c.values.keys };

    ghost invariant = { λ c. c.zero ≡ Int (pos 0) };
}

impl Codes {
    /// No values. It takes no memory yet.
    pub fn new(alloc: Global) -> Codes
        ensures { result ≡ [] }
    {
        Codes {
            values: IndexSet::new(alloc),
            zero: Value::Int(0),
        }
    }

    /// For proofs: no value has two codes. It does nothing.
    pub fn keeps_its_rules(&self)
        ensures { AreApart self.now }
    {
        // For the proof: the values differ.
        let _count = self.values.len();
    }

    /// The value with the code; 0 where no value has it.
    pub fn value(&self, code: u32) -> &Value
        ensures { result.now ≡ get_or self.now code (Int (pos 0)) }
    {
        match self.values.get_index(code as usize) {
            Some(value) => value,
            None => &self.zero,
        }
    }

    /// The code of a value of its own, which is looked for and put in at once.
    fn put(&mut self, value: Value) -> Result<u32, AllocError>
        ensures code { IfOk result (λ code. slice_get self.new code ≡ Some value) }
        ensures extends { Extends self.old self.new }
        ensures kept { (self.new ≡ self.old) ⊎ (self.new ≡ self.old ++ value ∷ []) }
    {
        let Ok(added) = self.values.insert_full(value) else {
            return Err(AllocError);
        };
        let code = short(added.0)?;
        Ok(code)
    }

    /// The code of the value, which gets one where it has none. A text is copied only then.
    pub fn code(&mut self, alloc: Global, value: &Value) -> Result<u32, AllocError>
        ensures code { IfOk result (λ code. slice_get self.new code ≡ Some value.now) }
        ensures extends { Extends self.old self.new }
        ensures kept { (self.new ≡ self.old) ⊎ (self.new ≡ self.old ++ value.now ∷ []) }
    {
        if let Value::Int(number) = value {
            return self.put(Value::Int(*number));
        }
        if let Some(position) = self.values.get_index_of(value) {
            let code = short(position)?;
            return Ok(code);
        }
        let Ok(copied) = value.copy(alloc) else {
            return Err(AllocError);
        };
        self.put(copied)
    }
}

/// The number in 32 bits. Where it is greater, memory for so many values could not be had.
fn short(number: usize) -> Result<u32, AllocError>
    ensures { IfOk result (λ code. code ≡ number) }
{
    match u32::try_from(number) {
        Ok(code) => Ok(code),
        Err(_) => Err(AllocError),
    }
}
