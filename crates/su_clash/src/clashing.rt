//! Whether some universal relation fits, and steps that show why none does.
ghost use Rattle.std.specs.Prelude.{◌≡◌, ◌⊎◌, ◌≤◌, IsTrue, length, map, IfOk, IfErr};
ghost use Rattle.su_chase.specs.Chase.{IsConsistent};
ghost use Rattle.su_window.specs.Padded.{AreReadings};
ghost use Rattle.su_clash.specs.declared.faults.ClashFault.TheVariants.{NoMemory as OutOfMemory};
ghost use Rattle.su_clash.specs.Derivations.{AllAreNeeded, AreFewest};
ghost use Rattle.su_clash.specs.Clash.{reading_of, rows_of_members, IsClashOf, IsVerdict, IsClashRefusal};
ghost use Rattle.su_clash.specs.inside.Renames.{HaveOneWidth, IsRefutation};

use crate::chasing::chased;
use crate::columns::all_columns;
use crate::faults::ClashFault;
use crate::members::{Member, members_of};
use crate::padding::padded_rows;
use crate::renaming::Pair;
use crate::searching::searched;
use crate::steps::Step;
use crate::thinning::{Refutation, refutation_by, thinned};
use std::alloc::Global;
use su_base::{List, NoMemory, Value};
use su_chase::{Closed, close};
use su_fd::Fd;
use su_state::Database;
use su_tableau::Sym;

/// Steps that refute the rows of all members: the last makes two different constants equal, and none can be
/// left out. Whether it is known that no fewer steps refute them.
#[derive(Debug, Drop)]
pub struct Clash {
    pub members: List<Member>,
    pub steps: List<Step>,
    pub one: Value,
    pub other: Value,
    pub fewest: bool,
}

/// Steps that refute the rows: those of the quick search, or where the checker refuses these, those of the
/// plain chase.
fn refuted(alloc: Global, fds: &[Fd], rows: &[List<Sym>]) -> Result<Refutation, NoMemory>
    requires wide { HaveOneWidth rows.now }
    requires inconsistent { ¬ IsConsistent fds.now rows.now }
    ensures { IfOk result (IsRefutation fds.now rows.now) }
{
    let steps = searched(alloc, fds, rows)?;
    if let Some(found) = refutation_by(alloc, fds, rows, steps.as_slice())? {
        return Ok(found);
    }
    match chased(alloc, fds, rows)? {
        Some(found) => Ok(found),
        None => unreachable!(),
    }
}

/// Whether it is seen at once that there are no fewer steps: without a step no constants meet.
fn is_least(steps: &[Step]) -> bool
    ensures { IsTrue result → length steps.now ≤ 1 }
{
    steps.len() <= 1
}

/// The clash of these rows, which are those of the members.
fn clash_of(
    alloc: Global,
    db: &Database,
    members: List<Member>,
    rows: &[List<Sym>],
) -> Result<Clash, NoMemory>
    requires members { AreReadings db.now (map reading_of members) }
    requires rows { rows.now ≡ rows_of_members db.now members }
    requires inconsistent { ¬ IsConsistent db.now.schema.fds rows.now }
    ensures { IfOk result (IsClashOf db.now) }
{
    db.keeps_its_rules();
    let fds = db.schema().fds();
    let found = refuted(alloc, fds, rows)?;
    let Refutation { steps, pair } = thinned(alloc, fds, rows, found)?;
    let Pair { one, other } = pair;
    let fewest = is_least(steps.as_slice());
    Ok(Clash {
        members,
        steps,
        one,
        other,
        fewest,
    })
}

/// Why no universal relation meets the dependencies and includes the stored rows; none where there is one.
pub fn find_clash(alloc: Global, db: &Database) -> Result<Option<Clash>, ClashFault>
    ensures verdict { IfOk result (IsVerdict db.now) }
    ensures refused { IfErr result (λ fault. (fault ≡ OutOfMemory) ⊎ IsClashRefusal db.now fault) }
{
    db.keeps_its_rules();
    let columns = all_columns(alloc, db.schema())?;
    let members = members_of(alloc, db, columns.as_slice())?;
    let rows = padded_rows(alloc, db, columns.as_slice(), members.as_slice())?;
    let Closed { names: _, clash } = close(alloc, db.schema().fds(), rows.as_slice())?;
    match clash {
        None => Ok(None),
        Some(_) => Ok(Some(clash_of(alloc, db, members, rows.as_slice())?)),
    }
}
