//! What terms are made of.
use su_base::ObjSet;
use su_query::Resolved;
use su_schema::Schema;

/// A resolved query, the schema in which its names were found, and the maximal objects to choose from.
#[derive(Drop)]
pub struct Question<'a> {
    pub schema: &'a Schema,
    pub maximal: &'a [ObjSet],
    pub resolved: &'a Resolved,
}
