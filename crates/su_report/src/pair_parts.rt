//! The part about pairs of attributes.
ghost use Rattle.std.specs.Prelude.{◌≡◌, ◌<◌, ◌≤◌, ◌↔◌, ℕ, IsTrue, IfOk, OnOk, length};
ghost use Rattle.std.specs.FinSet.{contains};
ghost use Rattle.su_base.specs.Sets.{set_at};
ghost use Rattle.su_schema.specs.SetMembers.{numbers_in};
ghost use Rattle.su_maxobj.specs.AdjoinableObjects.{IsAttributesOf};
ghost use Rattle.su_maxobj.specs.MaximalObjects.{object_sets as sets_of};
ghost use Rattle.su_report.specs.MaximalParts.{AreCovers, CoveredBy, UncoveredWith, PairsOf, later_than};
ghost use Rattle.su_report.specs.Report.{Pairs};
ghost use Rattle.su_show.specs.inside.AddedTexts.{Adds};
ghost use Rattle.su_show.specs.Lines.{AreLines};

use crate::pair_lines::{push_all_uncovered, push_covered};
use std::alloc::Global;
use su_advise::{attributes_of, covers_of, uncovered_with};
use su_base::{AttrSet, List, NoMemory, ObjSet};
use su_schema::Schema;

/// The attributes of each maximal object.
fn covers(alloc: Global, objects: &[AttrSet], maximal: &[ObjSet]) -> Result<List<AttrSet>, NoMemory>
    requires { length objects.now ≤ 64 }
    ensures same_length { IfOk result (λ list. length list ≡ length maximal.now) }
    ensures each { IfOk result (λ list. (k : ℕ) → k < length maximal.now → IsAttributesOf objects.now (set_at maximal.now k) (set_at list k)) }
{
    let mut list = List::new(alloc);
    for set in maximal {
        list.push(attributes_of(objects, *set))?;
    }
    Ok(list)
}

/// The attributes of objects.
fn used_in(objects: &[AttrSet]) -> AttrSet
    ensures { (a : ℕ) → IsTrue (contains result a) ↔ ((k : ℕ) × (k < length objects.now) × IsTrue (contains (set_at objects.now k) a)) }
{
    let mut all = AttrSet::empty();
    for object in objects {
        all = all.union(*object);
    }
    all
}

/// The attribute with those that no maximal object has together with it.
fn push_apart(
    alloc: Global,
    out: &mut Vec<u8>,
    schema: &Schema,
    used: AttrSet,
    covers: &[AttrSet],
    a: u8,
) -> Result<(), NoMemory>
    ensures { OnOk result (Adds (UncoveredWith schema.now used covers.now a) out.old.items out.new.items) }
{
    let found = uncovered_with(alloc, used, covers, a)?;
    push_all_uncovered(out, schema, a, found.as_slice())
}

/// The two attributes, where several maximal objects have both.
fn push_pair(
    alloc: Global,
    out: &mut Vec<u8>,
    schema: &Schema,
    covers: &[AttrSet],
    a: u8,
    b: u8,
) -> Result<(), NoMemory>
    requires { length covers.now ≤ 128 }
    ensures { OnOk result (Adds (CoveredBy schema.now covers.now a b) out.old.items out.new.items) }
{
    let found = covers_of(alloc, covers, a, b)?;
    push_covered(alloc, out, schema, a, b, found.as_slice())
}

/// The attribute with each later one that several maximal objects have together with it.
fn push_together(
    alloc: Global,
    out: &mut Vec<u8>,
    schema: &Schema,
    covers: &[AttrSet],
    a: u8,
) -> Result<(), NoMemory>
    requires { length covers.now ≤ 128 }
    ensures { OnOk result (Adds (AreLines (CoveredBy schema.now covers.now a) (later_than a (length schema.now.attributes))) out.old.items out.new.items) }
{
    schema.keeps_its_rules();
    for b in 0..schema.attributes() as u8 {
        if a < b {
            push_pair(alloc, out, schema, covers, a, b)?;
        }
    }
    Ok(())
}

/// Both, of the attribute.
fn push_pairs_of(
    alloc: Global,
    out: &mut Vec<u8>,
    schema: &Schema,
    used: AttrSet,
    covers: &[AttrSet],
    a: u8,
) -> Result<(), NoMemory>
    requires { length covers.now ≤ 128 }
    ensures { OnOk result (Adds (PairsOf schema.now used covers.now a) out.old.items out.new.items) }
{
    push_apart(alloc, out, schema, used, covers, a)?;
    push_together(alloc, out, schema, covers, a)
}

/// Those of each attribute of objects.
fn push_used(
    alloc: Global,
    out: &mut Vec<u8>,
    schema: &Schema,
    used: AttrSet,
    covers: &[AttrSet],
) -> Result<(), NoMemory>
    requires { length covers.now ≤ 128 }
    ensures { OnOk result (Adds (AreLines (PairsOf schema.now used covers.now) (numbers_in used (length schema.now.attributes))) out.old.items out.new.items) }
{
    schema.keeps_its_rules();
    for a in 0..schema.attributes() as u8 {
        if used.contains(a) {
            push_pairs_of(alloc, out, schema, used, covers, a)?;
        }
    }
    Ok(())
}

/// All pairs.
pub(crate) fn push_pairs(
    alloc: Global,
    out: &mut Vec<u8>,
    schema: &Schema,
    objects: &[AttrSet],
    maximal: &[ObjSet],
) -> Result<(), NoMemory>
    requires objects { objects.now ≡ sets_of schema.now }
    requires few { length maximal.now ≤ 128 }
    ensures { OnOk result (Adds (Pairs schema.now maximal.now) out.old.items out.new.items) }
{
    schema.keeps_its_rules();
    let used = used_in(objects);
    let covers = covers(alloc, objects, maximal)?;
    push_used(alloc, out, schema, used, covers.as_slice())
}
