//! Statements that were carried out and aren't replied to yet.
ghost use Rattle.std.specs.Prelude.{◌≡◌, false, [], OnOk};

use std::alloc::Global;
use su_base::{List, NoMemory};
use su_changes::Change;
use su_effects::Effect;

/// What was carried out and isn't replied to yet.
#[derive(Drop)]
pub(crate) struct Group {
    /// The replies, in order.
    pub replies: Vec<u8>,
    /// What was changed, in order.
    pub changes: List<Change>,
    /// Whether anything was: rows, or the schema.
    pub changed: bool,
    ghost quiet: { changed ≡ false → changes ≡ [] },
}

impl Group {
    ghost use Rattle.su_talk.specs.inside.Effects.{TakesEffect};
    ghost use Rattle.su_talk.specs.inside.Groups.{IsEmpty};

    pub fn new(alloc: Global) -> Group
        ensures { IsEmpty result }
    {
        Group {
            replies: Vec::new(alloc),
            changes: List::new(alloc),
            changed: false,
        }
    }

    /// Takes up what an accepted statement changed.
    pub fn take(&mut self, effect: Effect) -> Result<(), NoMemory>
        ensures { OnOk result (TakesEffect effect self.old self.new) }
    {
        match effect {
            Effect::Nothing => {}
            Effect::Defines => self.changed = true,
            Effect::Changes(change) => {
                self.changed = true;
                self.changes.push(change)?;
            }
        }
        Ok(())
    }
}
