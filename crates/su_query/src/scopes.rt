//! Where names are looked up.
ghost use Rattle.std.specs.Prelude.{◌≡◌};
ghost use Rattle.su_schema.specs.Entries.{place_of};
ghost use Rattle.su_query.specs.inside.SchemaScopes.{IsScope};
ghost use Rattle.su_query.specs.Scopes.{names_in};

use su_schema::Schema;

/// The attributes of a schema, or the columns of the relation with this number.
#[derive(Clone, Copy, PartialEq, Eq, Debug)]
pub(crate) enum Scope {
    Attributes,
    Columns(u8),
}

/// The number of the name in the scope.
pub(crate) fn find(schema: &Schema, scope: Scope, name: &str) -> Option<u8>
    requires { IsScope schema.now scope }
    ensures { result ≡ place_of (names_in schema.now scope) name.now }
{
    match scope {
        Scope::Attributes => schema.find_attribute(name),
        Scope::Columns(r) => schema.find_column(r, name),
    }
}
