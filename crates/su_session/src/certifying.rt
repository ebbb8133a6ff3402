//! Certificates of queries.
ghost use Rattle.std.specs.Prelude.{◌≡◌, ◌≤◌, IfOk};
ghost use Rattle.su_schema.specs.Entries.{attribute_kinds};
ghost use Rattle.su_maxobj.specs.MaximalObjects.{AreMaximalObjects};
ghost use Rattle.su_query.specs.Limits.{AreFew};
ghost use Rattle.su_session.specs.Certificates.{Certifies};

use crate::replies::{Reply, accepted, refused};
use crate::retrieving::make_ready;
use std::alloc::Global;
use std::thread::Threads;
use su_base::{Kind, List, NoMemory, ObjSet};
use su_par::Gate;
use su_query::Query;
use su_refute::{RefuteFault, certify as trees_of, write};
use su_schema::Schema;
use su_show::Refusal;
use su_state::Database;

/// How many nodes all trees of a certificate have at most.
const NODES: u32 = 200_000;

/// The kinds of all attributes.
fn kinds_of(alloc: Global, schema: &Schema) -> Result<List<Kind>, NoMemory>
    ensures { IfOk result (λ kinds. kinds ≡ attribute_kinds schema.now) }
{
    schema.keeps_its_rules();
    let mut kinds = List::new(alloc);
    for a in 0..schema.attributes() {
        kinds.push(schema.attribute_kind(a as u8))?;
    }
    Ok(kinds)
}

/// The certificate of a query, or why it is refused. Want of memory is handed on.
pub(crate) fn certify<R: Threads + Sync, G: Gate>(
    rt: &R,
    alloc: Global,
    db: &Database,
    maximal: &[ObjSet],
    query: &Query,
    workers: u8,
    gate: &G,
) -> Result<Reply, NoMemory>
    requires few { AreFew query.now.outputs query.now.cond }
    requires maximal { AreMaximalObjects db.now.schema maximal.now }
    requires least { 1 ≤ workers }
    requires most { workers ≤ 16 }
    ensures { IfOk result (λ reply. Certifies db.now query.now reply db.now) }
{
    let ready = match make_ready(rt, alloc, db, maximal, query, workers, gate) {
        Ok(ready) => ready,
        Err(why) => return refused(alloc, db, why),
    };
    let minimals = ready.prepared.minimals.as_slice();
    let trees = match trees_of(alloc, minimals, NODES) {
        Ok(trees) => trees,
        Err(RefuteFault::Nodes) => return refused(alloc, db, Refusal::Nodes),
        Err(RefuteFault::NoMemory) => return Err(NoMemory),
    };
    let kinds = kinds_of(alloc, db.schema())?;
    Ok(accepted(write(alloc, kinds.as_slice(), minimals, trees.as_slice())?))
}
