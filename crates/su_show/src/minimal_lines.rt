//! The lines of what is kept of a term.
ghost use Rattle.std.specs.Prelude.{◌≡◌, ◌++◌, ◌<◌, ◌↔◌, ℕ, [], IsTrue, Contains, codes, decimal, OnOk};
ghost use Rattle.std.specs.FinSet.{contains};
ghost use Rattle.std.specs.Int.{bit_at};
ghost use Rattle.su_tableau.specs.Essential.{IsEssential};
ghost use Rattle.su_tableau.specs.Parts.{keep_if};
ghost use Rattle.su_map.specs.Lists.{row_numbers};
ghost use Rattle.su_show.specs.inside.AddedTexts.{Adds};
ghost use Rattle.su_show.specs.inside.TermParts.{AreSourcesLines};
ghost use Rattle.su_lex.specs.Wordings.{numbers_text};
ghost use Rattle.su_show.specs.MinimalLines.{minimal_lines, cover_line, cover_of, cover_text, sources_line, IsSourcesLine, IsEnd};

use crate::values::push_objects;
use std::alloc::Global;
use su_base::parts::{push, push_number};
use su_base::{AttrSet, NoMemory, ObjSet};
use su_lex::push_numbers;
use su_map::Mapping;
use su_min::{Cover, Minimal, Reduced};
use su_schema::Schema;
use su_steps::sources_within;
use su_tableau::{all_essential, has};

/// A row behind a space, if it is in the mask.
fn push_row_in(alloc: Global, out: &mut Vec<u8>, mask: u64, row: usize) -> Result<(), NoMemory>
    requires { row < 64 }
    ensures { OnOk result (out.new.items ≡ out.old.items ++ numbers_text (keep_if (bit_at mask row) row [])) }
{
    if has(mask, row) {
        push(out, " ")?;
        push_number(alloc, out, row as u64)?;
    }
    Ok(())
}

/// The kept rows, each behind a space.
fn push_kept_rows(alloc: Global, out: &mut Vec<u8>, minimal: &Minimal) -> Result<(), NoMemory>
    ensures { OnOk result (out.new.items ≡ out.old.items ++ numbers_text (row_numbers minimal.now.tableau minimal.now.mask)) }
{
    for row in 0..minimal.tableau().row_count() {
        push_row_in(alloc, out, minimal.mask(), row)?;
    }
    Ok(())
}

/// The kept rows, and the row to which each goes.
pub(crate) fn push_minimal(
    alloc: Global,
    out: &mut Vec<u8>,
    minimal: &Minimal,
) -> Result<(), NoMemory>
    ensures { OnOk result (out.new.items ≡ out.old.items ++ minimal_lines minimal.now) }
{
    push(out, "  kept")?;
    push_kept_rows(alloc, out, minimal)?;
    push(out, "\n  fold")?;
    push_numbers(alloc, out, minimal.fold())?;
    push(out, "\n")
}

/// A row and its sources.
fn push_source_line(
    alloc: Global,
    out: &mut Vec<u8>,
    schema: &Schema,
    row: usize,
    set: ObjSet,
) -> Result<(), NoMemory>
    ensures { OnOk result (out.new.items ≡ out.old.items ++ sources_line schema.now row set) }
{
    push(out, "  sources ")?;
    push_number(alloc, out, row as u64)?;
    push_objects(alloc, out, schema, set)?;
    push(out, "\n")
}

/// The sources of a row whose essential columns these are.
fn push_sources(
    alloc: Global,
    out: &mut Vec<u8>,
    schema: &Schema,
    minimal: &Minimal,
    row: usize,
    columns: AttrSet,
) -> Result<(), NoMemory>
    requires { (c : ℕ) → IsTrue (contains columns c) ↔ IsEssential minimal.now.tableau minimal.now.mask row c }
    ensures { OnOk result (Adds (IsSourcesLine schema.now minimal.now row) out.old.items out.new.items) }
{
    let found = sources_within(schema, columns);
    push_source_line(alloc, out, schema, row, found)
}

/// The sources of each kept row.
fn push_all_sources(
    alloc: Global,
    out: &mut Vec<u8>,
    schema: &Schema,
    minimal: &Minimal,
) -> Result<(), NoMemory>
    ensures { OnOk result (Adds (AreSourcesLines schema.now minimal.now) out.old.items out.new.items) }
{
    let kept = minimal.mask();
    let columns = all_essential(alloc, minimal.tableau(), kept)?;
    let rows = minimal.tableau().row_count();
    for row in 0..rows {
        if has(kept, row) {
            push_sources(alloc, out, schema, minimal, row, *columns.get(row))?;
        }
    }
    Ok(())
}

/// The rows to which the rows of a cover go.
fn push_targets(alloc: Global, out: &mut Vec<u8>, mapping: &Mapping) -> Result<(), NoMemory>
    ensures { OnOk result (out.new.items ≡ out.old.items ++ numbers_text mapping.now.list) }
{
    push_numbers(alloc, out, mapping.list())
}

/// By which term another one is covered.
fn push_by(alloc: Global, out: &mut Vec<u8>, term: u16) -> Result<(), NoMemory>
    ensures { OnOk result (out.new.items ≡ out.old.items ++ codes "  covered by term " ++ decimal term) }
{
    push(out, "  covered by term ")?;
    push_number(alloc, out, term as u64)
}

fn push_cover(alloc: Global, out: &mut Vec<u8>, cover: &Cover) -> Result<(), NoMemory>
    ensures { OnOk result (out.new.items ≡ out.old.items ++ cover_line cover.now) }
{
    push_by(alloc, out, cover.by)?;
    push(out, " rows")?;
    push_targets(alloc, out, &cover.mapping)?;
    push(out, "\n")
}

/// The cover of the term with this number; nothing where it has none.
fn push_cover_of(
    alloc: Global,
    out: &mut Vec<u8>,
    reduced: &Reduced,
    number: usize,
) -> Result<(), NoMemory>
    ensures { OnOk result (out.new.items ≡ out.old.items ++ cover_text (cover_of reduced.now number)) }
{
    for cover in reduced.covers.as_slice() {
        if cover.dropped as usize == number {
            return push_cover(alloc, out, cover);
        }
    }
    Ok(())
}

/// Whether the term with this number is kept.
fn is_kept(reduced: &Reduced, number: usize) -> bool
    ensures { IsTrue result ↔ Contains reduced.now.kept number }
{
    for kept in reduced.kept.as_slice() {
        if *kept as usize == number {
            return true;
        }
    }
    false
}

/// The sources of the kept rows of a kept term, or the cover of a dropped one.
pub(crate) fn push_end(
    alloc: Global,
    out: &mut Vec<u8>,
    schema: &Schema,
    reduced: &Reduced,
    number: usize,
    minimal: &Minimal,
) -> Result<(), NoMemory>
    ensures { OnOk result (Adds (IsEnd schema.now reduced.now number minimal.now) out.old.items out.new.items) }
{
    if is_kept(reduced, number) {
        push_all_sources(alloc, out, schema, minimal)
    } else {
        push_cover_of(alloc, out, reduced, number)
    }
}
