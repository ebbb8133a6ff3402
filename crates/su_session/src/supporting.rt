//! What takes part in the answer of a query, in numbers.
ghost use Rattle.std.specs.Prelude.{◌≤◌, IfOk};
ghost use Rattle.su_maxobj.specs.MaximalObjects.{AreMaximalObjects};
ghost use Rattle.su_query.specs.Limits.{AreFew};
ghost use Rattle.su_session.specs.Supports.{Supports};

use crate::replies::{Reply, accepted, refused};
use crate::retrieving::make_ready;
use std::alloc::Global;
use std::thread::Threads;
use su_answer::support as supports_of;
use su_base::{NoMemory, ObjSet};
use su_par::Gate;
use su_query::Query;
use su_show::supports;
use su_state::Database;

/// The counts of a query's kept terms, or why it is refused. Want of memory is handed on.
pub(crate) fn support<R: Threads + Sync, G: Gate>(
    rt: &R,
    alloc: Global,
    db: &Database,
    maximal: &[ObjSet],
    query: &Query,
    workers: u8,
    gate: &G,
) -> Result<Reply, NoMemory>
    requires few { AreFew query.now.outputs query.now.cond }
    requires maximal { AreMaximalObjects db.now.schema maximal.now }
    requires least { 1 ≤ workers }
    requires most { workers ≤ 16 }
    ensures { IfOk result (λ reply. Supports db.now query.now reply db.now) }
{
    let ready = match make_ready(rt, alloc, db, maximal, query, workers, gate) {
        Ok(ready) => ready,
        Err(why) => return refused(alloc, db, why),
    };
    let found = supports_of(alloc, db, &ready.prepared)?;
    Ok(accepted(supports(alloc, found.as_slice())?))
}
