//! The lines of a clash.
ghost use Rattle.std.specs.Prelude.{◌≡◌, ◌++◌, ◌<◌, All, flat_map, length, IfOk, OnOk};
ghost use Rattle.su_window.specs.Padded.{IsReading};
ghost use Rattle.su_clash.specs.Derivations.{fd_of};
ghost use Rattle.su_clash.specs.Clash.{reading_of, IsClashOf};
ghost use Rattle.su_clash_text.specs.Lines.{rows_text, sides_text, step_line, head_line, rest_line, clash_lines};
ghost use Rattle.su_clash_text.specs.inside.Steps.{IsStep};

use crate::parts::{push_attributes, push_member, push_value};
use std::alloc::Global;
use su_base::parts::push;
use su_base::{List, NoMemory, Value};
use su_clash::{Clash, Member, Step};
use su_fd::Fd;
use su_schema::Schema;
use su_state::Database;

fn push_rows(
    alloc: Global,
    out: &mut Vec<u8>,
    db: &Database,
    members: &[Member],
    step: &Step,
) -> Result<(), NoMemory>
    requires members { All (λ m. IsReading db.now (reading_of m)) members.now }
    requires step { IsStep db.now members.now step.now }
    ensures { OnOk result (out.new.items ≡ out.old.items ++ rows_text db.now members.now step.now) }
{
    push_member(alloc, out, db, &members[step.first])?;
    push(out, " and ")?;
    push_member(alloc, out, db, &members[step.second])
}

fn push_sides(alloc: Global, out: &mut Vec<u8>, schema: &Schema, fd: &Fd) -> Result<(), NoMemory>
    ensures { OnOk result (out.new.items ≡ out.old.items ++ sides_text schema.now fd.now) }
{
    push(out, " agree on ")?;
    push_attributes(alloc, out, schema, fd.left)?;
    push(out, ", so on ")?;
    push_attributes(alloc, out, schema, fd.right)
}

/// The sides of the step's dependency.
fn push_sides_of(
    alloc: Global,
    out: &mut Vec<u8>,
    db: &Database,
    step: &Step,
) -> Result<(), NoMemory>
    requires { step.now.fd < length db.now.schema.fds }
    ensures { OnOk result (out.new.items ≡ out.old.items ++ sides_text db.now.schema (fd_of db.now.schema.fds step.now)) }
{
    push_sides(alloc, out, db.schema(), &db.schema().fds()[step.fd])?;
    Ok(())
}

/// A step: two rows, and where they agree.
fn push_step(
    alloc: Global,
    out: &mut Vec<u8>,
    db: &Database,
    members: &[Member],
    step: &Step,
) -> Result<(), NoMemory>
    requires members { All (λ m. IsReading db.now (reading_of m)) members.now }
    requires step { IsStep db.now members.now step.now }
    ensures { OnOk result (out.new.items ≡ out.old.items ++ step_line db.now members.now step.now) }
{
    push(out, "  ")?;
    push_rows(alloc, out, db, members, step)?;
    push_sides_of(alloc, out, db, step)?;
    push(out, "\n")
}

fn push_steps(
    alloc: Global,
    out: &mut Vec<u8>,
    db: &Database,
    members: &[Member],
    steps: &[Step],
) -> Result<(), NoMemory>
    requires members { All (λ m. IsReading db.now (reading_of m)) members.now }
    requires steps { All (IsStep db.now members.now) steps.now }
    ensures { OnOk result (out.new.items ≡ out.old.items ++ flat_map (step_line db.now members.now) steps.now) }
{
    for step in steps {
        push_step(alloc, out, db, members, step)?;
    }
    Ok(())
}

fn push_head(alloc: Global, out: &mut Vec<u8>, one: &Value, other: &Value) -> Result<(), NoMemory>
    ensures { OnOk result (out.new.items ≡ out.old.items ++ head_line one.now other.now) }
{
    push(out, "fault no universal relation has these rows: ")?;
    push_value(alloc, out, one)?;
    push(out, " and ")?;
    push_value(alloc, out, other)?;
    push(out, " would be equal\n")
}

/// Whether there may be fewer steps.
fn rest(fewest: bool) -> &'static str
    ensures { result.now ≡ rest_line fewest }
{
    if fewest {
        ""
    } else {
        "  maybe not the shortest\n"
    }
}

/// The lines of the clash of the database's rows.
pub fn clash_text(alloc: Global, db: &Database, clash: &Clash) -> Result<List<u8>, NoMemory>
    requires { IsClashOf db.now clash.now }
    ensures { IfOk result (λ text. text ≡ clash_lines db.now clash.now) }
{
    let mut out = Vec::new(alloc);
    push_head(alloc, &mut out, &clash.one, &clash.other)?;
    let members = clash.members.as_slice();
    push_steps(alloc, &mut out, db, members, clash.steps.as_slice())?;
    push(&mut out, rest(clash.fewest))?;
    Ok(List::from_vec(out))
}
