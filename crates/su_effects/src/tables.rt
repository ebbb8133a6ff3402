//! What a relation has.
ghost use Rattle.std.specs.Prelude.{◌≡◌, ◌<◌, ◌≤◌, length};
ghost use Rattle.su_state.specs.DatabaseValue.{table_of, columns_of};
ghost use Rattle.su_session.specs.RowStatements.{relation_number};

use su_base::{Column, Str};
use su_index::Table;
use su_state::Database;

/// The number of the relation with this name.
pub(crate) fn known(db: &Database, name: &Str) -> Option<u8>
    ensures { result ≡ relation_number db.now name.now }
{
    db.schema().find_relation(name.as_str())
}

/// The rows of the relation.
pub(crate) fn table(db: &Database, relation: u8) -> &Table
    requires { relation < length db.now.schema.relations }
    ensures { result.now ≡ table_of db.now relation }
{
    db.keeps_its_rules();
    &db.tables()[relation as usize]
}

/// The columns of the relation.
pub(crate) fn columns(db: &Database, relation: u8) -> &[Column]
    requires { relation < length db.now.schema.relations }
    ensures columns { result.now ≡ columns_of db.now relation }
    ensures few { length result.now ≤ 32 }
{
    db.schema().columns(relation)
}
