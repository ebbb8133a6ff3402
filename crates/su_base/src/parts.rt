//! Parts of a text, at the end of what stands there.
ghost use Rattle.std.specs.Prelude.{◌≡◌, ◌++◌, decimal, OnOk};

use crate::lists::NoMemory;
use std::alloc::Global;

/// Adds the text. Linear in it; takes memory for it.
pub fn push(out: &mut Vec<u8>, part: &str) -> Result<(), NoMemory>
    ensures { OnOk result (out.new.items ≡ out.old.items ++ part.now) }
{
    out.extend_from_slice(part.as_bytes())?;
    Ok(())
}

/// Adds the number in decimal digits.
pub fn push_number(alloc: Global, out: &mut Vec<u8>, number: u64) -> Result<(), NoMemory>
    ensures { OnOk result (out.new.items ≡ out.old.items ++ decimal number) }
{
    let digits = number.to_string(alloc)?;
    push(out, digits.as_str())
}
