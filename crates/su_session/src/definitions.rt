//! Definitions in a script.
ghost use Rattle.std.specs.Prelude.{◌≡◌, IfOk, OnErr};
ghost use Rattle.su_schema.specs.WellNamed.{IsWellNamed};
ghost use Rattle.su_session.specs.Reply.{AddsDefinition};

use crate::replies::{Reply, accepted, refused};
use crate::sessions::Session;
use su_base::NoMemory;
use su_maxobj::maximal_objects;
use su_schema::Definition;
use su_show::{Refusal, Room};
use su_state::{DefineFault, extended};

impl Session {
    /// One copy of the schema takes the definition. Its maximal objects are found before anything changes,
    /// and then the database takes it for its own.
    pub(crate) fn add(&mut self, definition: &Definition) -> Result<Reply, NoMemory>
        requires { IsWellNamed definition.now }
        ensures replied { IfOk result (λ reply. AddsDefinition self.old definition.now reply self.new) }
        ensures unchanged { OnErr result (self.new ≡ self.old) }
    {
        let schema = match extended(self.db.schema(), definition) {
            Ok(schema) => schema,
            Err(fault) => {
                let why = Refusal::Define(DefineFault::Schema(fault));
                return refused(self.alloc, &self.db, why);
            }
        };
        let maximal = maximal_objects(self.alloc, &schema)?;
        let room = Room::new(self.alloc)?;
        self.representative = None;
        match self.db.adopt(definition, schema) {
            Ok(()) => {
                self.maximal = maximal;
                Ok(accepted(room.defined()))
            }
            Err(fault) => refused(self.alloc, &self.db, Refusal::Define(fault)),
        }
    }
}
