//! Definitions as values, by name.
use su_base::{Column, Kind, List, Str};

/// An attribute of an object and the column that it is taken from.
#[derive(Debug, Drop)]
pub struct Pair {
    pub attribute: Str,
    pub column: Str,
}

/// One definition of a schema, as it is written.
#[derive(Debug, Drop)]
pub enum Definition {
    /// An attribute of the universal relation.
    Attribute {
        name: Str,
        kind: Kind,
    },
    /// A stored relation.
    Relation {
        name: Str,
        columns: List<Column>,
    },
    /// An object: attributes that a stored relation joins.
    Object {
        name: Str,
        relation: Str,
        pairs: List<Pair>,
    },
    /// A functional dependency: the left attributes determine the right ones.
    Fd {
        left: List<Str>,
        right: List<Str>,
    },
    /// A set of objects that is a maximal object by declaration.
    Maximal {
        objects: List<Str>,
    },
}
