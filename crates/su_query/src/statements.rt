//! The statements of a script.
use crate::conditions::NamedCond;
use crate::refs::Ref;
use su_base::{List, Row, Str};

/// `retrieve (outputs)` and its condition, which is all of nothing where there is none.
#[derive(Debug)]
pub struct Query {
    pub outputs: List<Ref>,
    pub cond: NamedCond,
}

/// Not derived, so that it is a single call wherever a query goes out of scope.
impl Drop for Query {
    fn drop(self) {
        let Query {
            outputs: _,
            cond: _,
        } = self;
    }
}

/// One statement of a script.
#[derive(Debug)]
pub enum Statement {
    Insert { relation: Str, row: Row },
    Delete { relation: Str, row: Row },
    /// The refs of the condition are columns: none has a variable.
    DeleteWhere { relation: Str, cond: NamedCond },
    Load { relation: Str, file: Str },
    Print { relation: Str },
    Schema,
    Closure { attributes: List<Str> },
    Retrieve(Query),
    Explain(Query),
    /// `explain with` and the query: a certificate is wanted.
    Certify(Query),
    /// `explain from` and the query: the counts of what its answer is joined from are wanted.
    Support(Query),
    /// Whether the rows of each of the two queries are rows of the other.
    Compare { first: Query, second: Query },
    /// At least one name; a name may stand twice.
    Window { attributes: List<Str> },
}

/// Not derived, so that it is a single call wherever a statement goes out of scope.
impl Drop for Statement {
    fn drop(self) {
        match self {
            Statement::Insert {
                relation: _,
                row: _,
            } => {}
            Statement::Delete {
                relation: _,
                row: _,
            } => {}
            Statement::DeleteWhere {
                relation: _,
                cond: _,
            } => {}
            Statement::Load {
                relation: _,
                file: _,
            } => {}
            Statement::Print { relation: _ } => {}
            Statement::Schema => {}
            Statement::Closure { attributes: _ } => {}
            Statement::Retrieve(_) => {}
            Statement::Explain(_) => {}
            Statement::Certify(_) => {}
            Statement::Support(_) => {}
            Statement::Compare {
                first: _,
                second: _,
            } => {}
            Statement::Window { attributes: _ } => {}
        }
    }
}
