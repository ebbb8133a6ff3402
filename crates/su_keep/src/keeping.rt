//! Changes are kept.
ghost use Rattle.std.specs.Prelude.{◌≡◌, ◌⊎◌, ◌≤◌, [], false, Option as Maybe, Some as SomeOf, Err as ErrOf, IfErr, OnOk, OnErr, IsTrue};
ghost use Rattle.sqlite_trees.specs.View.{doubt, IsClean, Commits, IsRolledBack};
ghost use Rattle.su_keep.specs.inside.Faults.{HasWriteCause};
ghost use Rattle.su_keep.specs.inside.Writes.{MayCommit};

use crate::faults::KeepFault;
use crate::writing::write_group;
use sqlite_trees::store::{Alter, Store};
use sqlite_value::row::Row as Entry;
use std::alloc::Global;
use su_base::List;
use su_changes::Change;
use su_state::Database;

/// The open file of a database.
#[derive(Drop)]
pub struct Keeper<S: Alter> {
    pub(crate) alloc: Global,
    pub(crate) store: S,
    /// How many relations have their table.
    pub(crate) relations: u8,
    /// The schema's text in the file; none in a new file.
    pub(crate) text: Option<List<u8>>,
    pub(crate) entry: Entry,
    /// A group was begun and not kept: the file has to be opened anew.
    pub(crate) has_failed: bool,
    ghost numbered: { has_failed ≡ false → IsClean (S.Store.view store) → IsTrue (S.Store.view store).is_numbered },
}

/// Whether this text is held, and there is no change.
fn is_idle(held: &Option<List<u8>>, text: &[u8], changes: &[Change]) -> bool
    ensures held { IsTrue result → held.now ≡ SomeOf text.now }
    ensures none { IsTrue result → changes.now ≡ [] }
    ensures busy { result ≡ false → held.now ≡ SomeOf text.now → changes.now ≡ [] → ⊥ }
{
    match held {
        Some(held) => {
            if held.as_slice() != text {
                return false;
            }
            changes.is_empty()
        }
        None => false,
    }
}

/// Commits what is written.
#[tactic(auto, using(crate::proofs::Caused::cause_of_error))]
pub(crate) fn commit<S: Alter>(store: &mut S) -> Result<(), KeepFault>
    ensures ok { OnOk result (IsClean (S.Store.view store.new) → Commits (S.Store.view store.old) (S.Store.view store.new)) }
    ensures err { OnErr result (IsRolledBack (S.Store.view store.old) (S.Store.view store.new)) }
    ensures cause { IfErr result (HasWriteCause S.Store.view S.Store.faults store.old store.new) }
    ensures clean { doubt (S.Store.view store.old).is_clean ≤ doubt (S.Store.view store.new).is_clean }
    ensures crash { MayCommit S.Store.view S.Store.recovers store.old store.new }
{
    store.commit()?;
    Ok(())
}

impl<S: Alter> Keeper<S> {
    ghost use Rattle.su_ddl.specs.Shown.{schema_text};
    ghost use Rattle.su_state.specs.DatabaseValue.{DatabaseValue};
    ghost use Rattle.su_keep.specs.Causes.{HasKeepCause};
    ghost use Rattle.su_keep.specs.Kept.{HasCleanDisk, HasMoreFaults, IsAt, LeavesAtMost, MayKeep, StaysCommitted};

    /// Whether nothing has been kept in the file yet.
    pub fn is_new(&self) -> bool
        ensures { (kept : Maybe DatabaseValue) → IsAt self.now kept → IsTrue result → kept ≡ Maybe.None }
    {
        self.text.is_none()
    }

    /// Whether a group was not kept: the file has to be opened anew.
    pub fn has_failed(&self) -> bool
        ensures { result ≡ self.now.has_failed }
    {
        self.has_failed
    }

    /// Keeps a group of changes in one commit: after it the file holds the schema of the database, and
    /// the rows that it held with the changes made in their order. A group that changes nothing writes
    /// nothing. After a fault nothing is kept any more: the file holds what it held before, or what it
    /// would hold.
    #[tactic(auto, using(crate::proofs::Caused::cause_within, crate::proofs::Stood::written_shows, crate::proofs::Stood::stands_after, crate::proofs::Stood::stands_still, crate::proofs::Followed::group_numbered))]
    pub fn keep(&mut self, database: &Database, changes: List<Change>) -> Result<(), KeepFault>
        ensures done { (kept : Maybe DatabaseValue) → MayKeep self.old kept changes database.now → OnOk result (HasCleanDisk self.new → IsAt self.new (SomeOf database.now)) }
        ensures crash { (kept : Maybe DatabaseValue) → MayKeep self.old kept changes database.now → HasCleanDisk self.new → LeavesAtMost self.old self.new database.now }
        ensures stays { (kept : Maybe DatabaseValue) → IsAt self.old kept → OnErr result (HasCleanDisk self.new → StaysCommitted self.old self.new) }
        ensures clean { HasCleanDisk self.new → HasCleanDisk self.old }
        ensures kept { OnOk result (self.new.has_failed ≡ false) }
        ensures fails { OnErr result (IsTrue self.new.has_failed ⊎ (self.new ≡ self.old)) }
        ensures shut { IsTrue self.old.has_failed → (result ≡ ErrOf KeepFault.Damaged) × (self.new ≡ self.old) }
        ensures cause { IfErr result (λ fault. HasCleanDisk self.new → HasKeepCause (HasMoreFaults self.old self.new) fault) }
        ensures idle { self.old.has_failed ≡ false → self.old.text ≡ SomeOf (schema_text database.now.schema) → changes ≡ [] → self.new ≡ self.old }
    {
        if self.has_failed {
            return Err(KeepFault::Damaged);
        }
        database.keeps_its_rules();
        let schema = database.schema();
        schema.keeps_its_rules();
        let text = su_ddl::show(self.alloc, schema)?;
        if is_idle(&self.text, text.as_slice(), changes.as_slice()) {
            return Ok(());
        }
        self.has_failed = true;
        let (alloc, first) = (self.alloc, self.relations);
        if let Err(fault) = write_group(
            alloc,
            &mut self.store,
            schema,
            first,
            &self.text,
            text.as_slice(),
            changes,
            &mut self.entry,
        ) {
            self.store.rollback();
            return Err(fault);
        }
        commit(&mut self.store)?;
        self.relations = schema.relations() as u8;
        self.text = Some(text);
        self.has_failed = false;
        Ok(())
    }
}
