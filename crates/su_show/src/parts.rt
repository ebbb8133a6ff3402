//! Parts of a text, at the end of what stands there.
ghost use Rattle.std.specs.Prelude.{◌≡◌, ◌++◌, flat_map, OnOk};
ghost use Rattle.su_show.specs.Values.{behind_spaces};

use su_base::parts::push;
use su_base::{NoMemory, Str};

pub(crate) fn push_all(out: &mut Vec<u8>, parts: &[&str]) -> Result<(), NoMemory>
    ensures { OnOk result (out.new.items ≡ out.old.items ++ flat_map (λ part. part.now) parts.now) }
{
    for part in parts {
        push(out, part)?;
    }
    Ok(())
}

/// Each name behind a space.
pub(crate) fn push_names(out: &mut Vec<u8>, names: &[Str]) -> Result<(), NoMemory>
    ensures { OnOk result (out.new.items ≡ out.old.items ++ behind_spaces names.now) }
{
    for name in names {
        push(out, " ")?;
        push(out, name.as_str())?;
    }
    Ok(())
}
