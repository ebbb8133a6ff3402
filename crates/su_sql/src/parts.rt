//! Parts of a text, at the end of what stands there.
ghost use Rattle.std.specs.Prelude.{◌≡◌, ◌++◌, OnOk};
ghost use Rattle.su_sql.specs.Names.{led};

use su_base::parts::push;
use su_base::{List, NoMemory};

/// The parts, the first behind `first`, each other one behind `next`.
pub(crate) fn push_led(
    out: &mut Vec<u8>,
    first: &str,
    next: &str,
    parts: &[List<u8>],
) -> Result<(), NoMemory>
    ensures { OnOk result (out.new.items ≡ out.old.items ++ led first.now next.now parts.now) }
{
    let mut lead = first;
    for part in parts {
        push(out, lead)?;
        out.extend_from_slice(part.as_slice())?;
        lead = next;
    }
    Ok(())
}
