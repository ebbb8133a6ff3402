//! The counts of candidates, and of what is left of them.
ghost use Rattle.std.specs.Prelude.{◌≡◌, ◌++◌, flat_map, IfOk, OnOk};
ghost use Rattle.su_show.specs.Supports.{shape_text, left_text, row_number_text, candidates_text, counted_line, support_lines, supports_text};

use std::alloc::Global;
use su_base::parts::{push, push_number};
use su_base::{List, NoMemory};
use su_reduce::{Counted, Support};

fn shape(acyclic: bool) -> &'static str
    ensures { result.now ≡ shape_text acyclic }
{
    if acyclic { " acyclic" } else { " cyclic" }
}

fn push_left(alloc: Global, out: &mut Vec<u8>, left: Option<u64>) -> Result<(), NoMemory>
    ensures { OnOk result (out.new.items ≡ out.old.items ++ left_text left) }
{
    match left {
        Some(count) => {
            push(out, " left ")?;
            push_number(alloc, out, count)
        }
        None => Ok(()),
    }
}

fn push_row(alloc: Global, out: &mut Vec<u8>, row: u8) -> Result<(), NoMemory>
    ensures { OnOk result (out.new.items ≡ out.old.items ++ row_number_text row) }
{
    push(out, "  row ")?;
    push_number(alloc, out, row as u64)
}

fn push_candidates(alloc: Global, out: &mut Vec<u8>, count: u64) -> Result<(), NoMemory>
    ensures { OnOk result (out.new.items ≡ out.old.items ++ candidates_text count) }
{
    push(out, " candidates ")?;
    push_number(alloc, out, count)
}

fn push_counted(alloc: Global, out: &mut Vec<u8>, counted: &Counted) -> Result<(), NoMemory>
    ensures { OnOk result (out.new.items ≡ out.old.items ++ counted_line counted.now) }
{
    push_row(alloc, out, counted.row)?;
    push_candidates(alloc, out, counted.candidates)?;
    push_left(alloc, out, counted.left)?;
    push(out, "\n")
}

fn push_rows(alloc: Global, out: &mut Vec<u8>, rows: &[Counted]) -> Result<(), NoMemory>
    ensures { OnOk result (out.new.items ≡ out.old.items ++ flat_map counted_line rows.now) }
{
    for counted in rows {
        push_counted(alloc, out, counted)?;
    }
    Ok(())
}

fn push_support(alloc: Global, out: &mut Vec<u8>, support: &Support) -> Result<(), NoMemory>
    ensures { OnOk result (out.new.items ≡ out.old.items ++ support_lines support.now) }
{
    push(out, "term ")?;
    push_number(alloc, out, support.term as u64)?;
    push(out, shape(support.acyclic))?;
    push(out, "\n")?;
    push_rows(alloc, out, support.rows.as_slice())
}

/// The lines of what takes part in the answers of the kept terms; no byte where no term is kept.
pub fn supports(alloc: Global, supports: &[Support]) -> Result<List<u8>, NoMemory>
    ensures { IfOk result (λ text. text ≡ supports_text supports.now) }
{
    let mut out = Vec::new(alloc);
    for support in supports {
        push_support(alloc, &mut out, support)?;
    }
    Ok(List::from_vec(out))
}
