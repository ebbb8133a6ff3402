//! A closure and how it comes about.
ghost use Rattle.std.specs.Prelude.{◌≡◌, ◌++◌, flat_map, IfOk, OnOk};
ghost use Rattle.su_state.specs.Breaches.{fd_at};
ghost use Rattle.su_show.specs.Replies.{by_line, closure_reply, IsClosureReply};

use crate::values::{push_attributes, push_fd};
use std::alloc::Global;
use su_base::parts::push;
use su_base::{AttrSet, List, NoMemory};
use su_fd::{Fd, closure as closure_of, derivation};
use su_schema::Schema;

/// The dependency of this number.
pub(crate) fn fd_at(schema: &Schema, number: u16) -> Fd
    ensures { result ≡ fd_at schema.now number }
{
    match schema.fds().get(number as usize) {
        Some(fd) => *fd,
        None => Fd {
            left: AttrSet::empty(),
            right: AttrSet::empty(),
        },
    }
}

fn push_step(alloc: Global, out: &mut Vec<u8>, schema: &Schema, number: u16) -> Result<(), NoMemory>
    ensures { OnOk result (out.new.items ≡ out.old.items ++ by_line schema.now number) }
{
    push(out, "  by ")?;
    push_fd(alloc, out, schema, &fd_at(schema, number))?;
    push(out, "\n")
}

fn push_steps(
    alloc: Global,
    out: &mut Vec<u8>,
    schema: &Schema,
    used: &[u16],
) -> Result<(), NoMemory>
    ensures { OnOk result (out.new.items ≡ out.old.items ++ flat_map (by_line schema.now) used.now) }
{
    for number in used {
        push_step(alloc, out, schema, *number)?;
    }
    Ok(())
}

/// The reply, from the closure and its derivation.
fn reply(
    alloc: Global,
    schema: &Schema,
    closed: AttrSet,
    used: &[u16],
) -> Result<List<u8>, NoMemory>
    ensures { IfOk result (λ text. text ≡ closure_reply schema.now closed used.now) }
{
    let mut out = Vec::new(alloc);
    push(&mut out, "closure")?;
    push_attributes(alloc, &mut out, schema, closed)?;
    push(&mut out, "\n")?;
    push_steps(alloc, &mut out, schema, used)?;
    Ok(List::from_vec(out))
}

/// The closure of the attributes, and a line for each dependency that leads there.
pub fn closure(alloc: Global, schema: &Schema, start: AttrSet) -> Result<List<u8>, NoMemory>
    ensures { IfOk result (λ text. IsClosureReply schema.now start text) }
{
    schema.keeps_its_rules();
    let used = derivation(alloc, schema.fds(), start)?;
    reply(
        alloc,
        schema,
        closure_of(schema.fds(), start),
        used.as_slice(),
    )
}
