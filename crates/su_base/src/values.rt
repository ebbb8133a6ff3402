//! Values, rows and columns.
ghost use Rattle.std.specs.Prelude.{◌≡◌, [], ◌∷◌, ◌++◌, ◌≤◌, length, IfOk, OnOk, OnErr};
ghost use Rattle.su_base.specs.Value.{compare_values, compare_lists, kind_of};

use crate::lists::{List, NoMemory};
use crate::texts::Str;
use std::alloc::Global;
use std::cmp::Ordering;

/// The kind of a value.
#[derive(Clone, Copy, PartialEq, Eq, Debug)]
pub enum Kind {
    Int,
    Text,
}

/// A whole number or a text. Whole numbers stand before texts.
#[derive(PartialEq, Eq, PartialOrd, Ord, Hash, Debug, Drop)]
pub enum Value {
    Int(i64),
    Text(Str),
}

impl Value {
    /// Whether it is a number or a text.
    pub fn kind(&self) -> Kind
        ensures { result ≡ kind_of self.now }
    {
        match self {
            Value::Int(_) => Kind::Int,
            Value::Text(_) => Kind::Text,
        }
    }

    /// An equal value of its own.
    pub fn copy(&self, alloc: Global) -> Result<Value, NoMemory>
        ensures { IfOk result (λ v. v ≡ self.now) }
    {
        match self {
            Value::Int(n) => Ok(Value::Int(*n)),
            Value::Text(text) => Ok(Value::Text(text.copy(alloc)?)),
        }
    }

    /// Makes it a text that lies in the value itself.
    #[inline(always)]
    fn fill(&mut self, text: &str)
        requires { length text.now ≤ 14 }
        ensures { self.new ≡ Value.Text text.now }
    {
        if let Value::Text(held) = self {
            held.fill(text);
        } else {
            *self = Value::Text(Str::short(text));
        }
    }

    /// Whole numbers before texts, numbers as numbers, texts by their bytes.
    pub fn compare(&self, other: &Value) -> Ordering
        ensures { result ≡ compare_values self.now other.now }
    {
        self.cmp(other)
    }
}

/// One value per column.
pub type Row = List<Value>;

impl List<Value> {
    /// Adds a copy of the text at the end. One that lies in the value itself is written once, where it
    /// stays. Where memory is wanting, the row stays as it was.
    #[inline(always)]
    pub fn push_text(&mut self, alloc: Global, text: &str) -> Result<(), NoMemory>
        ensures ok { OnOk result (self.new ≡ self.old ++ Value.Text text.now ∷ []) }
        ensures unchanged { OnErr result (self.new ≡ self.old) }
    {
        if !Str::is_short(text) {
            return self.push_placed(alloc, text);
        }
        let place = self.len();
        self.push(Value::Text(Str::short("")))?;
        self.items[place].fill(text);
        Ok(())
    }

    /// Adds a copy of the text at the end, of any length. It is not inlined, so that rows of short texts
    /// are filled in few registers.
    #[inline(never)]
    fn push_placed(&mut self, alloc: Global, text: &str) -> Result<(), NoMemory>
        ensures ok { OnOk result (self.new ≡ self.old ++ Value.Text text.now ∷ []) }
        ensures unchanged { OnErr result (self.new ≡ self.old) }
    {
        Ok(self.push(Value::Text(Str::new(alloc, text)?))?)
    }
}

/// A column of a stored relation.
#[derive(Debug, Drop)]
pub struct Column {
    pub name: Str,
    pub kind: Kind,
}

/// Value by value; a row that another begins with stands before it.
pub fn compare_rows(a: &Row, b: &Row) -> Ordering
    ensures { result ≡ compare_lists a.now b.now }
{
    a.cmp(b)
}

/// An equal row of its own.
pub fn copy_row(alloc: Global, row: &Row) -> Result<Row, NoMemory>
    ensures { IfOk result (λ r. r ≡ row.now) }
{
    let mut copied = List::from_vec(Vec::with_capacity(alloc, row.len())?);
    for value in row.as_slice() {
        copied.push(value.copy(alloc)?)?;
    }
    Ok(copied)
}
