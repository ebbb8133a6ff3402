//! The part about maximal objects and their cycles.
ghost use Rattle.std.specs.Prelude.{◌≡◌, ◌<◌, ◌≤◌, ℕ, IsTrue, IfOk, OnOk, All, length};
ghost use Rattle.std.specs.FinSet.{contains};
ghost use Rattle.su_maxobj.specs.MaximalObjects.{object_sets as sets_of};
ghost use Rattle.su_report.specs.Parts.{below};
ghost use Rattle.su_report.specs.MaximalParts.{MeetingOf, AreMeeting, HangsBy, Hang};
ghost use Rattle.su_report.specs.inside.Added.{AddsFaults};
ghost use Rattle.su_show.specs.inside.AddedTexts.{Adds};
ghost use Rattle.su_show.specs.Lines.{AreLines};

use crate::cycle_lines::{push_acyclic, push_breakers, push_cyclic, push_meeting};
use std::alloc::Global;
use su_advise::{core_of, ear_order, least_breakers, meeting_in};
use su_base::{AttrSet, NoMemory, ObjSet};
use su_schema::Schema;

/// The objects of the core that have the attribute, where they are several.
fn push_meeting_in(
    alloc: Global,
    out: &mut Vec<u8>,
    schema: &Schema,
    objects: &[AttrSet],
    core: ObjSet,
    a: u8,
) -> Result<(), NoMemory>
    requires objects { objects.now ≡ sets_of schema.now }
    requires within { (k : ℕ) → IsTrue (contains core k) → k < length objects.now }
    ensures { OnOk result (Adds (MeetingOf schema.now core a) out.old.items out.new.items) }
{
    schema.keeps_its_rules();
    let found = meeting_in(alloc, objects, core, a)?;
    push_meeting(alloc, out, schema, a, found.as_slice())
}

/// The attributes in which objects of the core meet.
fn push_meetings(
    alloc: Global,
    out: &mut Vec<u8>,
    schema: &Schema,
    objects: &[AttrSet],
    core: ObjSet,
) -> Result<(), NoMemory>
    requires objects { objects.now ≡ sets_of schema.now }
    requires within { (k : ℕ) → IsTrue (contains core k) → k < length objects.now }
    ensures { OnOk result (Adds (AreLines (MeetingOf schema.now core) (below (length schema.now.attributes))) out.old.items out.new.items) }
{
    schema.keeps_its_rules();
    for a in 0..schema.attributes() as u8 {
        push_meeting_in(alloc, out, schema, objects, core, a)?;
    }
    Ok(())
}

/// The attributes that two objects of the core have.
fn meeting_of(objects: &[AttrSet], core: ObjSet) -> AttrSet
    requires { length objects.now ≤ 64 }
    ensures { AreMeeting objects.now core result }
{
    let mut once = AttrSet::empty();
    let mut twice = AttrSet::empty();
    for (o, object) in objects.iter().enumerate() {
        if core.contains(o as u8) {
            twice = twice.union(once.meet(*object));
            once = once.union(*object);
        }
    }
    twice
}

/// The maximal object with this number; whether it has a cycle.
fn push_maximal(
    alloc: Global,
    out: &mut Vec<u8>,
    schema: &Schema,
    objects: &[AttrSet],
    k: usize,
    set: ObjSet,
) -> Result<bool, NoMemory>
    requires objects { objects.now ≡ sets_of schema.now }
    requires within { (o : ℕ) → IsTrue (contains set o) → o < length objects.now }
    ensures { IfOk result (AddsFaults (HangsBy schema.now k set) out.old.items out.new.items) }
{
    schema.keeps_its_rules();
    if let Some(order) = ear_order(alloc, objects, set)? {
        push_acyclic(alloc, out, schema, k, order.as_slice())?;
        return Ok(false);
    }
    let core = core_of(objects, set);
    push_cyclic(alloc, out, schema, k, core)?;
    push_meetings(alloc, out, schema, objects, core)?;
    let breakers = least_breakers(alloc, objects, core, meeting_of(objects, core))?;
    push_breakers(alloc, out, schema, &breakers)?;
    Ok(true)
}

/// All maximal objects; whether one has a cycle.
pub(crate) fn push_all_maximal(
    alloc: Global,
    out: &mut Vec<u8>,
    schema: &Schema,
    objects: &[AttrSet],
    maximal: &[ObjSet],
) -> Result<bool, NoMemory>
    requires objects { objects.now ≡ sets_of schema.now }
    requires within { All (λ m. (o : ℕ) → IsTrue (contains m o) → o < length objects.now) maximal.now }
    ensures { IfOk result (AddsFaults (Hang schema.now 0 maximal.now) out.old.items out.new.items) }
{
    let mut fault = false;
    for k in 0..maximal.len() {
        fault |= push_maximal(alloc, out, schema, objects, k, maximal[k])?;
    }
    Ok(fault)
}
