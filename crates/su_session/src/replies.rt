//! The reply to a statement.
ghost use Rattle.std.specs.Prelude.{◌≡◌, IfOk};
ghost use Rattle.su_session.specs.Outcomes.{Accepts, Refuses};
ghost use Rattle.su_session.specs.RowStatements.{relation_number};

use std::alloc::Global;
use su_base::{List, NoMemory, Str};
use su_show::{Refusal, refusal};
use su_state::{Database, StateFault};

/// The text of a reply, each line with its line feed, and whether it is a refusal.
#[derive(Drop)]
pub struct Reply {
    pub refused: bool,
    pub bytes: List<u8>,
}

/// The reply to an accepted statement.
pub(crate) fn accepted(bytes: List<u8>) -> Reply
    ensures { Accepts bytes result }
{
    Reply {
        refused: false,
        bytes,
    }
}

/// The reply to a refused statement. Want of memory is handed on.
pub(crate) fn refused(alloc: Global, db: &Database, why: Refusal) -> Result<Reply, NoMemory>
    ensures { IfOk result (λ reply. Refuses db.now why reply db.now) }
{
    let bytes = refusal(alloc, db.schema(), &why)?;
    Ok(Reply {
        refused: true,
        bytes,
    })
}

/// The number of the relation with this name.
pub(crate) fn known(db: &Database, name: &Str) -> Option<u8>
    ensures { result ≡ relation_number db.now name.now }
{
    db.schema().find_relation(name.as_str())
}

/// The reply where no relation has this name.
pub(crate) fn unknown(alloc: Global, db: &Database, name: &Str) -> Result<Reply, NoMemory>
    ensures { IfOk result (λ reply. Refuses db.now (Refusal.State (StateFault.UnknownRelation name.now)) reply db.now) }
{
    let name = name.copy(alloc)?;
    refused(alloc, db, Refusal::State(StateFault::UnknownRelation(name)))
}
