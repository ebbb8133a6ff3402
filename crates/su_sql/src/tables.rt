//! What a select says, before it is text.
use su_base::{List, Value};
use su_exec::Source;
use su_where::Op;

/// Where the rows of one row of a tableau are stored: columns of one relation, or of several, which
/// are united.
pub struct Table {
    pub sources: List<Source>,
}

/// Not derived, so that it is a single call wherever a table goes out of scope; so are the others here.
impl Drop for Table {
    fn drop(self) {
        let Table { sources: _ } = self;
    }
}

/// A value of a table's row. Tables, and the values of a row, are numbered from 0.
#[derive(Clone, Copy)]
pub struct CellPlace {
    pub table: usize,
    pub cell: usize,
}

/// What a select compares and gives.
pub enum Operand {
    At(CellPlace),
    Const(Value),
}

impl Drop for Operand {
    fn drop(self) {
        match self {
            Operand::At(_) => {}
            Operand::Const(_) => {}
        }
    }
}

/// The values at two places are equal.
#[derive(Clone, Copy)]
pub struct Join {
    pub left: CellPlace,
    pub right: CellPlace,
}

/// The value at a place is this one.
#[derive(Drop)]
pub struct Fixed {
    pub place: CellPlace,
    pub value: Value,
}

/// Two operands compare like this.
#[derive(Drop)]
pub struct Comparison {
    pub left: Operand,
    pub op: Op,
    pub right: Operand,
}

/// One select: a row of each table, such that all conditions hold, gives its outputs.
pub struct Select {
    pub tables: List<Table>,
    pub joins: List<Join>,
    pub fixed: List<Fixed>,
    pub comparisons: List<Comparison>,
    pub outputs: List<Operand>,
}

impl Drop for Select {
    fn drop(self) {
        let Select {
            tables: _,
            joins: _,
            fixed: _,
            comparisons: _,
            outputs: _,
        } = self;
    }
}
