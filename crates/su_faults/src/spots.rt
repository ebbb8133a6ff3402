//! Where within a form a reader of tokens stands.
use crate::sorts::Sort;

/// Which forms are looked for.
#[derive(Clone, Copy, PartialEq, Eq)]
pub enum Language {
    Statements,
    Definitions,
    Either,
}

/// Before what of a definition: a name says what comes next.
#[derive(Clone, Copy, PartialEq, Eq)]
pub enum InDefinition {
    AttributeName,
    AttributeKind,
    RelationName,
    RelationOpen,
    Column,
    ColumnKind,
    ColumnNext,
    ObjectName,
    ObjectOpen,
    Attribute,
    AttributeNext,
    ObjectFrom,
    ObjectRelation,
    TakenOpen,
    Taken,
    TakenNext,
    Left,
    LeftNext,
    Right,
    RightNext,
}

/// Before what of a statement.
#[derive(Clone, Copy, PartialEq, Eq)]
pub enum InStatement {
    InsertName,
    ValuesOpen,
    Value,
    ValueNext,
    DeleteName,
    DeleteHow,
    LoadName,
    LoadFrom,
    LoadFile,
    PrintName,
    NamesOpen,
    Name,
    NameNext,
    End,
}

/// Before what of a query, or of what stands round queries.
#[derive(Clone, Copy, PartialEq, Eq)]
pub enum InQuery {
    Explained,
    CompareOpen,
    Start,
    OutputsOpen,
    Output,
    OutputDot,
    OutputAttribute,
    OutputNext,
    Where,
    CompareWith,
    SecondOpen,
}

/// Before what of a condition.
#[derive(Clone, Copy, PartialEq, Eq)]
pub enum InCondition {
    Factor,
    Primary,
    LeftDot,
    LeftAttribute,
    Operator,
    Right,
    RightDot,
    RightAttribute,
    Next,
}

/// Before what of a form.
#[derive(Clone, Copy, PartialEq, Eq)]
pub enum Spot {
    Start(Language),
    Definition(InDefinition),
    Statement(InStatement),
    Query(InQuery),
    Condition(InCondition),
}

/// What a condition or a query stands in, which decides what may follow it.
#[derive(Clone, Copy, PartialEq, Eq)]
pub enum Frame {
    /// To the end of the statement.
    Alone,
    /// A deletion's condition, which has columns alone: to the end of the statement.
    Columns,
    /// In parentheses, the first of two queries.
    First,
    /// In parentheses, the second one.
    Second,
}

/// Where a token leads.
#[derive(Clone, Copy, PartialEq, Eq)]
pub enum Move {
    To(Spot),
    /// One more is open.
    Up(Spot),
    /// One fewer is open.
    Down(Spot),
    /// From now on within this.
    On(Frame, Spot),
}

/// A kind of token that may come next, and where it leads.
pub type Choice = (Sort, Move);

/// How far some tokens lead: what comes next, within what, and how many parentheses of a condition, or
/// attributes of an object that have no column yet, are open.
#[derive(Clone, Copy, PartialEq, Eq)]
pub struct State {
    pub spot: Spot,
    pub frame: Frame,
    pub level: usize,
}
