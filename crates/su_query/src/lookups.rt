//! Names that are looked up in a schema.
ghost use Rattle.std.specs.Prelude.{◌≡◌, ◌⊎◌, Some, IfOk, IfErr};
ghost use Rattle.su_schema.specs.Entries.{place_of};
ghost use Rattle.su_query.specs.inside.SchemaScopes.{IsScope};
ghost use Rattle.su_query.specs.inside.Unknowns.{IsUnknown};
ghost use Rattle.su_query.specs.Scopes.{names_in};
ghost use Rattle.su_query.specs.Lookup.{unknown_in};

use crate::faults::QueryFault;
use crate::refs::Ref;
use crate::scopes::{Scope, find};
use std::alloc::Global;
use su_base::Str;
use su_schema::Schema;

/// The name is none of the scope's.
fn unknown(scope: Scope, name: Str) -> QueryFault
    ensures { result ≡ unknown_in scope name }
{
    match scope {
        Scope::Attributes => QueryFault::Unknown(name),
        Scope::Columns(_) => QueryFault::UnknownColumn(name),
    }
}

/// The number of the ref's name in the scope, or that the scope has no such name.
pub(crate) fn look_up(
    alloc: Global,
    schema: &Schema,
    scope: Scope,
    reference: &Ref,
) -> Result<u8, QueryFault>
    requires { IsScope schema.now scope }
    ensures found { IfOk result (λ number. place_of (names_in schema.now scope) reference.now.attribute ≡ Some number) }
    ensures refused { IfErr result (λ fault. (fault ≡ QueryFault.NoMemory) ⊎ IsUnknown schema.now scope reference.now.attribute fault) }
{
    match find(schema, scope, reference.attribute.as_str()) {
        Some(number) => Ok(number),
        None => Err(unknown(scope, reference.attribute.copy(alloc)?)),
    }
}
