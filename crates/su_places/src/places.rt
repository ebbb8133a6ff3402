//! The place of a fault.
ghost use Rattle.std.specs.Prelude.{◌≡◌, ◌++◌, OnOk};
ghost use Rattle.su_places.specs.Places.{place_text};

use crate::kinds::{KINDS, push_kinds};
use std::alloc::Global;
use su_base::NoMemory;
use su_base::parts::{push, push_number};
use su_faults::Fault;

/// Adds ` at PLACE expected KIND ..`, where so many bytes stand before the text.
pub fn push_place(
    alloc: Global,
    out: &mut Vec<u8>,
    before: usize,
    fault: &Fault,
) -> Result<(), NoMemory>
    ensures { OnOk result (out.new.items ≡ out.old.items ++ place_text before fault.now) }
{
    let Some(place) = before.checked_add(fault.place) else {
        return Err(NoMemory);
    };
    push(out, " at ")?;
    push_number(alloc, out, place as u64)?;
    push(out, " expected")?;
    push_kinds(out, fault.wanted.as_slice(), &KINDS)
}
