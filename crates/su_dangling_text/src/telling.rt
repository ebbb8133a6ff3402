//! The lines of all objects of all scopes.
ghost use Rattle.std.specs.Prelude.{◌≡◌, ◌++◌, flat_map, IfOk, OnOk};
ghost use Rattle.su_show.specs.inside.AddedTexts.{Adds};
ghost use Rattle.su_dangling_text.specs.Lines.{object_lines, LinesOf, IsDanglingText};

use crate::object_lines::push_object;
use crate::scopes::Scope;
use std::alloc::Global;
use su_base::{List, NoMemory};
use su_dangling::{Dangling, dangling_in};
use su_schema::Schema;
use su_state::Database;

fn push_objects(
    alloc: Global,
    out: &mut Vec<u8>,
    schema: &Schema,
    scope: &Scope,
    found: &[Dangling],
) -> Result<(), NoMemory>
    ensures { OnOk result (out.new.items ≡ out.old.items ++ flat_map (object_lines schema.now scope.now) found.now) }
{
    for one in found {
        push_object(alloc, out, schema, scope, one)?;
    }
    Ok(())
}

fn push_scope(
    alloc: Global,
    out: &mut Vec<u8>,
    db: &Database,
    scope: &Scope,
) -> Result<(), NoMemory>
    ensures { OnOk result (Adds (LinesOf db.now scope.now) out.old.items out.new.items) }
{
    let found = dangling_in(alloc, db, scope.objects)?;
    push_objects(alloc, out, db.schema(), scope, found.as_slice())?;
    Ok(())
}

/// What joins and what dangles among the objects of each scope, whose views are joined.
pub fn dangling_text(alloc: Global, db: &Database, scopes: &[Scope]) -> Result<List<u8>, NoMemory>
    ensures { IfOk result (IsDanglingText db.now scopes.now) }
{
    let mut out = Vec::new(alloc);
    for scope in scopes {
        push_scope(alloc, &mut out, db, scope)?;
    }
    Ok(List::from_vec(out))
}
