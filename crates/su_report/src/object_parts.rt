//! The notes on keys and forms of objects.
ghost use Rattle.std.specs.Prelude.{◌≡◌, ◌<◌, ◌≤◌, ◌↔◌, ℕ, IsTrue, OnOk, Contains, length};
ghost use Rattle.std.specs.Ordering.{nat_cmp};
ghost use Rattle.std.specs.FinSet.{FinSet, contains};
ghost use Rattle.su_maxobj.specs.MaximalObjects.{object_sets as sets_of};
ghost use Rattle.su_base.specs.Sets.{set_at};
ghost use Rattle.su_report.specs.Parts.{below};
ghost use Rattle.su_report.specs.ObjectParts.{AreSame, KeysOf, BrokenBy, ObjectNotes};
ghost use Rattle.su_show.specs.inside.AddedTexts.{Adds};
ghost use Rattle.su_show.specs.Lines.{AreLines};

use crate::dependency_lines::push_breaking;
use crate::object_lines::push_keys;
use crate::parts::fd_at;
use std::alloc::Global;
use su_advise::{breaking, keys, lying_in};
use su_base::{AttrSet, List, NoMemory};
use su_schema::Schema;

/// Whether the two sets are one.
fn is_same(a: AttrSet, b: AttrSet) -> bool
    ensures { IsTrue result ↔ (a ≡ b) }
{
    a.within(b) && b.within(a)
}

/// Whether the set is one of these.
fn is_among(sets: &[AttrSet], set: AttrSet) -> bool
    ensures { IsTrue result ↔ Contains sets.now set }
{
    for other in sets {
        if is_same(*other, set) {
            return true;
        }
    }
    false
}

/// Whether each of the sets is one of the others.
fn are_among(sets: &[AttrSet], others: &[AttrSet]) -> bool
    ensures { IsTrue result ↔ ((x : FinSet nat_cmp) → Contains sets.now x → Contains others.now x) }
{
    for set in sets {
        if !is_among(others, *set) {
            return false;
        }
    }
    true
}

/// Whether the two have the same sets.
fn are_equal(xs: &[AttrSet], ys: &[AttrSet]) -> bool
    ensures { IsTrue result ↔ ((x : FinSet nat_cmp) → Contains xs.now x ↔ Contains ys.now x) }
{
    are_among(xs, ys) && are_among(ys, xs)
}

/// Whether the two are the same keys, or none were looked for either time.
fn are_same(all: &Option<List<AttrSet>>, own: &Option<List<AttrSet>>) -> bool
    ensures { IsTrue result ↔ AreSame all.now own.now }
{
    match (all, own) {
        (Some(xs), Some(ys)) => are_equal(xs.as_slice(), ys.as_slice()),
        (None, None) => true,
        _ => false,
    }
}

/// The keys of the object, by all dependencies and by those in it.
fn push_keys_of(
    alloc: Global,
    out: &mut Vec<u8>,
    schema: &Schema,
    o: u8,
    object: AttrSet,
) -> Result<(), NoMemory>
    requires object { object ≡ set_at (sets_of schema.now) o }
    requires below { (a : ℕ) → IsTrue (contains object a) → a < 128 }
    ensures { OnOk result (Adds (KeysOf schema.now o) out.old.items out.new.items) }
{
    let own_fds = lying_in(alloc, schema.fds(), object)?;
    let all = keys(alloc, schema.fds(), object)?;
    let own = keys(alloc, own_fds.as_slice(), object)?;
    push_keys(alloc, out, schema, o, "", &all)?;
    if are_same(&all, &own) {
        return Ok(());
    }
    push_keys(alloc, out, schema, o, " by the dependencies in it", &own)
}

/// What breaks the object's form.
fn push_broken(
    alloc: Global,
    out: &mut Vec<u8>,
    schema: &Schema,
    o: u8,
    object: AttrSet,
) -> Result<(), NoMemory>
    requires { object ≡ set_at (sets_of schema.now) o }
    ensures { OnOk result (Adds (BrokenBy schema.now o) out.old.items out.new.items) }
{
    schema.keeps_its_rules();
    let found = breaking(alloc, schema.fds(), object)?;
    for i in found.as_slice() {
        push_breaking(alloc, out, schema, o, &fd_at(schema, *i))?;
    }
    Ok(())
}

/// Both.
fn push_notes_on(
    alloc: Global,
    out: &mut Vec<u8>,
    schema: &Schema,
    o: u8,
    object: AttrSet,
) -> Result<(), NoMemory>
    requires object { object ≡ set_at (sets_of schema.now) o }
    requires below { (a : ℕ) → IsTrue (contains object a) → a < 128 }
    ensures { OnOk result (Adds (ObjectNotes schema.now o) out.old.items out.new.items) }
{
    push_keys_of(alloc, out, schema, o, object)?;
    push_broken(alloc, out, schema, o, object)
}

/// Those on each object.
pub(crate) fn push_object_notes(
    alloc: Global,
    out: &mut Vec<u8>,
    schema: &Schema,
    objects: &[AttrSet],
) -> Result<(), NoMemory>
    requires { objects.now ≡ sets_of schema.now }
    ensures { OnOk result (Adds (AreLines (ObjectNotes schema.now) (below (length schema.now.objects))) out.old.items out.new.items) }
{
    schema.keeps_its_rules();
    for o in 0..objects.len() {
        push_notes_on(alloc, out, schema, o as u8, objects[o])?;
    }
    Ok(())
}
