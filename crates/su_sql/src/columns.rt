//! Relations and their columns, by number. What is none of the schema's has an empty name.
ghost use Rattle.std.specs.Prelude.{◌≡◌, ◌++◌, OnOk};
ghost use Rattle.su_sql.specs.Names.{relation_name, relation_text, column_text};

use crate::dialects::Dialect;
use crate::words::push_name;
use su_base::NoMemory;
use su_schema::Schema;

fn relation_name(schema: &Schema, relation: u8) -> &str
    ensures { result.now ≡ relation_name schema.now relation }
{
    if relation as usize >= schema.relations() {
        return "";
    }
    schema.relation_name(relation)
}

pub(crate) fn push_relation(
    out: &mut Vec<u8>,
    dialect: Dialect,
    schema: &Schema,
    relation: u8,
) -> Result<(), NoMemory>
    ensures { OnOk result (out.new.items ≡ out.old.items ++ relation_text dialect schema.now relation) }
{
    push_name(out, dialect, relation_name(schema, relation))
}

pub(crate) fn push_column(
    out: &mut Vec<u8>,
    dialect: Dialect,
    schema: &Schema,
    relation: u8,
    column: usize,
) -> Result<(), NoMemory>
    ensures { OnOk result (out.new.items ≡ out.old.items ++ column_text dialect schema.now relation column) }
{
    push_name(out, dialect, schema.column_name(relation, column))
}
