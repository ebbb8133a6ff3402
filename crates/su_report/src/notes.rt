//! The part of notes on objects that stand alone, dependencies, and keys and forms.
ghost use Rattle.std.specs.Prelude.{◌≡◌, ◌↔◌, IsTrue, Contains, OnOk, length};
ghost use Rattle.su_base.specs.Lists.{AreExactly};
ghost use Rattle.su_maxobj.specs.MaximalObjects.{object_sets as sets_of};
ghost use Rattle.su_report.specs.Parts.{AreNotes, RedundantLine, Redundancies, SparesOf};
ghost use Rattle.su_report.specs.ObjectParts.{ObjectNotes};
ghost use Rattle.su_report.specs.Report.{Notes};
ghost use Rattle.su_report.specs.UnusedLines.{alone_lines};
ghost use Rattle.su_show.specs.inside.AddedTexts.{Adds};
ghost use Rattle.su_advise.specs.Alone.{IsAlone};
ghost use Rattle.su_advise.specs.Redundant.{IsDroppable};
ghost use Rattle.su_show.specs.Lines.{AreLines};

use crate::dependency_lines::{push_redundant, push_spares};
use crate::object_parts::push_object_notes;
use crate::parts::fd_at;
use crate::unused_lines::push_lone_objects;
use std::alloc::Global;
use su_advise::{droppable, lone_objects, redundant, spare_attributes};
use su_base::{AttrSet, NoMemory, ObjSet};
use su_fd::Fd;
use su_schema::Schema;

/// The objects that no maximal object joins with another.
fn push_alone(
    alloc: Global,
    out: &mut Vec<u8>,
    schema: &Schema,
    maximal: &[ObjSet],
) -> Result<(), NoMemory>
    ensures { OnOk result (Adds (AreNotes (IsAlone (length schema.now.objects) maximal.now) (alone_lines schema.now)) out.old.items out.new.items) }
{
    schema.keeps_its_rules();
    let found = lone_objects(alloc, schema.objects() as u8, maximal)?;
    push_lone_objects(alloc, out, schema, found.as_slice())
}

/// Whether the number is one of these.
fn is_in(numbers: &[u16], i: u16) -> bool
    ensures { IsTrue result ↔ Contains numbers.now i }
{
    numbers.contains(&i)
}

/// A dependency that follows from the others, and whether it may be dropped.
fn push_redundancy(
    alloc: Global,
    out: &mut Vec<u8>,
    schema: &Schema,
    dropped: &[u16],
    i: u16,
) -> Result<(), NoMemory>
    requires { AreExactly (IsDroppable schema.now.fds (sets_of schema.now)) dropped.now }
    ensures { OnOk result (Adds (RedundantLine schema.now i) out.old.items out.new.items) }
{
    let may_go = is_in(dropped, i);
    push_redundant(alloc, out, schema, may_go, &fd_at(schema, i))
}

/// The dependencies that follow from the others.
fn push_redundancies(
    alloc: Global,
    out: &mut Vec<u8>,
    schema: &Schema,
    objects: &[AttrSet],
) -> Result<(), NoMemory>
    requires { objects.now ≡ sets_of schema.now }
    ensures { OnOk result (Adds (Redundancies schema.now) out.old.items out.new.items) }
{
    schema.keeps_its_rules();
    let found = redundant(alloc, schema.fds())?;
    let dropped = droppable(alloc, schema.fds(), objects)?;
    for i in found.as_slice() {
        push_redundancy(alloc, out, schema, dropped.as_slice(), *i)?;
    }
    Ok(())
}

/// The spare attributes of the dependency.
fn push_spares_of(
    alloc: Global,
    out: &mut Vec<u8>,
    schema: &Schema,
    fd: &Fd,
) -> Result<(), NoMemory>
    ensures { OnOk result (Adds (SparesOf schema.now fd.now) out.old.items out.new.items) }
{
    let found = spare_attributes(alloc, schema.fds(), fd)?;
    push_spares(alloc, out, schema, fd, found.as_slice())
}

/// Those of all dependencies.
fn push_all_spares(alloc: Global, out: &mut Vec<u8>, schema: &Schema) -> Result<(), NoMemory>
    ensures { OnOk result (Adds (AreLines (SparesOf schema.now) schema.now.fds) out.old.items out.new.items) }
{
    for fd in schema.fds() {
        push_spares_of(alloc, out, schema, fd)?;
    }
    Ok(())
}

/// All of it.
pub(crate) fn push_notes(
    alloc: Global,
    out: &mut Vec<u8>,
    schema: &Schema,
    objects: &[AttrSet],
    maximal: &[ObjSet],
) -> Result<(), NoMemory>
    requires { objects.now ≡ sets_of schema.now }
    ensures { OnOk result (Adds (Notes schema.now maximal.now) out.old.items out.new.items) }
{
    push_alone(alloc, out, schema, maximal)?;
    push_redundancies(alloc, out, schema, objects)?;
    push_all_spares(alloc, out, schema)?;
    push_object_notes(alloc, out, schema, objects)
}
