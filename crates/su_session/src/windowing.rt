//! The window of the stored rows on some attributes.
ghost use Rattle.std.specs.Prelude.{◌≡◌, ◌⊎◌, ◌<◌, All, None, IfSome, IfOk, IfErr, OnOk};
ghost use Rattle.su_schema.specs.Entries.{attribute_names};
ghost use Rattle.su_query.specs.Scopes.{first_unknown_name};
ghost use Rattle.su_query.specs.Sets.{IsNameRefusal};
ghost use Rattle.su_window.specs.Cuts.{width};
ghost use Rattle.su_window.specs.declared.faults.WindowFault.TheVariants.{NoMemory as OutOfMemory};
ghost use Rattle.su_window.specs.Refusals.{IsWindowRefusal};
ghost use Rattle.su_window.specs.Representative.{Represents};
ghost use Rattle.su_session.specs.Windows.{attribute_numbers, ShowsWindow};

use crate::replies::{Reply, accepted, refused};
use std::alloc::Global;
use su_base::{List, NoMemory, Str};
use su_query::QueryFault;
use su_schema::Schema;
use su_show::{Refusal, rows};
use su_state::Database;
use su_window::{Representative, WindowFault, represent, window_of};

/// The numbers of the attributes with these names, in their order. A name may stand twice.
fn numbers(alloc: Global, schema: &Schema, names: &[Str]) -> Result<List<u8>, QueryFault>
    ensures numbers { IfOk result (λ numbers. numbers ≡ attribute_numbers schema.now names.now) }
    ensures below { IfOk result (All (λ a. a < width schema.now)) }
    ensures known { OnOk result (first_unknown_name (attribute_names schema.now) names.now ≡ None) }
    ensures refused { IfErr result (λ fault. (fault ≡ QueryFault.NoMemory) ⊎ IsNameRefusal schema.now names.now fault) }
{
    schema.keeps_its_rules();
    let mut numbers = List::new(alloc);
    for name in names {
        let attribute = match schema.find_attribute(name.as_str()) {
            Some(a) => a,
            None => return Err(QueryFault::Unknown(name.copy(alloc)?)),
        };
        numbers.push(attribute)?;
    }
    Ok(numbers)
}

/// The representative instance: the one that is kept, or one that is made. None is kept then.
fn representative(
    alloc: Global,
    db: &Database,
    kept: &mut Option<Representative>,
) -> Result<Representative, WindowFault>
    requires kept { IfSome kept.old (Represents db.now) }
    ensures is { IfOk result (Represents db.now) }
    ensures refused { IfErr result (λ fault. (fault ≡ OutOfMemory) ⊎ IsWindowRefusal db.now fault) }
    ensures taken { kept.new ≡ None }
{
    match kept.take() {
        Some(representative) => Ok(representative),
        None => represent(alloc, db),
    }
}

/// The rows over these attributes that every universal relation has, or why there are none. What was made
/// of the database for it is kept for the next window. Want of memory is handed on.
pub(crate) fn show_window(
    alloc: Global,
    db: &Database,
    kept: &mut Option<Representative>,
    names: &[Str],
) -> Result<Reply, NoMemory>
    requires kept { IfSome kept.old (Represents db.now) }
    ensures shown { IfOk result (λ reply. ShowsWindow db.now names.now reply db.now) }
    ensures kept { IfSome kept.new (Represents db.now) }
{
    let attributes = match numbers(alloc, db.schema(), names) {
        Ok(attributes) => attributes,
        Err(fault) => return refused(alloc, db, Refusal::Query(fault)),
    };
    let representative = match representative(alloc, db, kept) {
        Ok(representative) => representative,
        Err(WindowFault::Limit) => return refused(alloc, db, Refusal::WindowLimit),
        Err(WindowFault::Inconsistent { less, greater }) => {
            return refused(alloc, db, Refusal::Inconsistent { less, greater });
        }
        Err(WindowFault::NoMemory) => return Err(NoMemory),
    };
    let found = window_of(alloc, db, &representative, attributes.as_slice())?;
    *kept = Some(representative);
    Ok(accepted(rows(alloc, names, found.as_slice())?))
}
