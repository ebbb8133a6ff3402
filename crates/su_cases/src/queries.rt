//! Queries over the numbers of a schema, from their texts.
ghost use Rattle.std.specs.Prelude.{IfSome};
ghost use Rattle.su_query.specs.Limits.{HasFew};
ghost use Rattle.su_query.specs.Ranges.{IsResolved};

use std::alloc::Global;
use su_query::{Resolved, Statement, read, resolve};
use su_schema::Schema;

/// The query of a statement; none where it is no query or is refused.
fn resolved_of(alloc: Global, schema: &Schema, statement: &Statement) -> Option<Resolved>
    requires { HasFew statement.now }
    ensures { IfSome result (IsResolved schema.now) }
{
    match statement {
        Statement::Retrieve(query) => resolve(alloc, schema, query).ok(),
        _ => None,
    }
}

/// The query of the text; none where it is no query or is refused.
pub fn query_of(alloc: Global, schema: &Schema, text: &str) -> Option<Resolved>
    ensures { IfSome result (IsResolved schema.now) }
{
    match read(alloc, text.as_bytes()) {
        Ok(statement) => resolved_of(alloc, schema, &statement),
        Err(_) => None,
    }
}
