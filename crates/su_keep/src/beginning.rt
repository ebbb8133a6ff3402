//! A database without a table is begun.
ghost use Rattle.std.specs.Prelude.{◌≡◌, ◌⊎◌, true, [], IfOk, OnOk};
ghost use Rattle.sqlite_trees.specs.Tree.{Trees};
ghost use Rattle.sqlite_trees.specs.View.{IsClean};
ghost use Rattle.sqlite_trees.specs.Objects.{catalog_tree};
ghost use Rattle.su_keep.specs.inside.Stores.{StandsOpen, Begins};

use crate::faults::{KeepFault, OpenFault};
use crate::keeping::commit;
use crate::listing::text_object;
use crate::writing::is_absent;
use sqlite_trees::store::{Alter, Store};
use std::alloc::Global;

/// Whether the store has no table.
fn lacks_tables<S: Alter>(alloc: Global, store: &S) -> Result<bool, OpenFault>
    ensures { IfOk result (λ lacks. IsClean (S.Store.view store.now) → lacks ≡ true → (S.Store.view store.now).trees catalog_tree ≡ []) }
{
    let objects = store.objects(alloc)?;
    Ok(objects.is_empty())
}

/// Makes the table of the schema's text in a store that has no table and the version 0.
fn make_first<S: Alter>(store: &mut S) -> Result<(), OpenFault>
    requires stands { IsClean (S.Store.view store.old) → StandsOpen (S.Store.view store.old) }
    requires none { IsClean (S.Store.view store.old) → (S.Store.view store.old).trees catalog_tree ≡ [] }
    ensures stands { OnOk result (IsClean (S.Store.view store.new) → StandsOpen (S.Store.view store.new)) }
    ensures made { OnOk result (IsClean (S.Store.view store.new) → Begins (S.Store.view store.old) (S.Store.view store.new).trees) }
    ensures clean { IsClean (S.Store.view store.new) → IsClean (S.Store.view store.old) }
    ensures crash { (trees : Trees) → IsClean (S.Store.view store.new) → S.Store.recovers store.new trees → S.Store.recovers store.old trees ⊎ Begins (S.Store.view store.old) trees }
{
    let version = store.version();
    if version != 0 {
        return Err(OpenFault::Version(version));
    }
    if !is_absent(store, 0) {
        return Err(OpenFault::NotADatabase);
    }
    let object = text_object();
    if let Err(error) = store.create(0, &object) {
        store.rollback();
        return Err(OpenFault::from(KeepFault::from(error)));
    }
    match commit(store) {
        Ok(()) => Ok(()),
        Err(fault) => Err(OpenFault::from(fault)),
    }
}

/// Makes the table of the schema's text where the store has no table.
pub(crate) fn begin<S: Alter>(alloc: Global, store: &mut S) -> Result<(), OpenFault>
    requires { IsClean (S.Store.view store.old) → StandsOpen (S.Store.view store.old) }
    ensures stands { OnOk result (IsClean (S.Store.view store.new) → StandsOpen (S.Store.view store.new)) }
    ensures trees { OnOk result (IsClean (S.Store.view store.new) → ((S.Store.view store.new).trees ≡ (S.Store.view store.old).trees) ⊎ Begins (S.Store.view store.old) (S.Store.view store.new).trees) }
    ensures clean { IsClean (S.Store.view store.new) → IsClean (S.Store.view store.old) }
    ensures crash { (trees : Trees) → IsClean (S.Store.view store.new) → S.Store.recovers store.new trees → S.Store.recovers store.old trees ⊎ Begins (S.Store.view store.old) trees }
{
    if lacks_tables(alloc, store)? {
        return make_first(store);
    }
    Ok(())
}
