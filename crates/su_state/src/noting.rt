//! Notes of the rows by the left sides of the enforced dependencies, so that an insert looks them up at
//! once. They are an optimisation: no row changes, and no clause says that a note is there.
ghost use Rattle.std.specs.Prelude.{◌≡◌, ◌<◌, length};
ghost use Rattle.su_state.specs.inside.AddedDefinitions.{HaveTables};

use crate::databases::Database;
use crate::sides::sides_through;
use su_base::NoMemory;
use su_index::Table;
use su_schema::Schema;

/// Lets the table of the object note its rows by the left side of the dependency, if it lies in the object.
fn note_through(
    schema: &Schema,
    tables: &mut Vec<Table>,
    fd: u16,
    object: u8,
) -> Result<(), NoMemory>
    requires tables { HaveTables schema.now tables.old.items }
    requires fd { fd < length schema.now.fds }
    requires object { object < length schema.now.objects }
    ensures { tables.new.items ≡ tables.old.items }
{
    schema.keeps_its_rules();
    match sides_through(schema, &schema.fds()[fd as usize], object) {
        Some(sides) => tables[schema.object_relation(object) as usize].note(sides.left),
        None => Ok(()),
    }
}

/// The same through each object.
fn note_fd(schema: &Schema, tables: &mut Vec<Table>, fd: u16) -> Result<(), NoMemory>
    requires tables { HaveTables schema.now tables.old.items }
    requires fd { fd < length schema.now.fds }
    ensures { tables.new.items ≡ tables.old.items }
{
    schema.keeps_its_rules();
    for object in 0..schema.objects() as u8 {
        note_through(schema, tables, fd, object)?;
    }
    Ok(())
}

/// The same for each dependency.
fn note_all(schema: &Schema, tables: &mut Vec<Table>) -> Result<(), NoMemory>
    requires { HaveTables schema.now tables.old.items }
    ensures { tables.new.items ≡ tables.old.items }
{
    schema.keeps_its_rules();
    for fd in 0..schema.fds().len() as u16 {
        note_fd(schema, tables, fd)?;
    }
    Ok(())
}

impl Database {
    /// Lets each table note its rows by the left sides of the dependencies that are enforced on it.
    /// Where memory is wanting, some are left out.
    pub(crate) fn note_sides(&mut self)
        ensures { self.new ≡ self.old }
    {
        self.schema.keeps_its_rules();
        let _noted = note_all(&self.schema, &mut self.tables);
    }
}
