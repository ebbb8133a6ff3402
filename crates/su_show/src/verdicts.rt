//! The line of a verdict on a certificate.
ghost use Rattle.std.specs.Prelude.{◌≡◌, ◌++◌, IfOk, OnOk};
ghost use Rattle.su_show.specs.Verdicts.{term_text, fault_text, verdict_text, verdict_line};

use std::alloc::Global;
use su_base::parts::{push, push_number};
use su_base::{List, NoMemory};
use su_check::{Checked, Fault};

/// The term at this place, and what is at fault in it.
fn push_term(alloc: Global, out: &mut Vec<u8>, place: u32, part: &str) -> Result<(), NoMemory>
    ensures { OnOk result (out.new.items ≡ out.old.items ++ term_text place part.now) }
{
    push(out, "term ")?;
    push_number(alloc, out, place as u64)?;
    push(out, part)
}

fn push_fault(alloc: Global, out: &mut Vec<u8>, fault: Fault) -> Result<(), NoMemory>
    ensures { OnOk result (out.new.items ≡ out.old.items ++ fault_text fault) }
{
    match fault {
        Fault::Syntax => push(out, "syntax"),
        Fault::Form(place) => push_term(alloc, out, place, " form"),
        Fault::Fold(place) => push_term(alloc, out, place, " fold"),
        Fault::Tree { term, row } => {
            push_term(alloc, out, term, " tree ")?;
            push_number(alloc, out, row as u64)
        }
    }
}

fn push_verdict(alloc: Global, out: &mut Vec<u8>, verdict: Checked) -> Result<(), NoMemory>
    ensures { OnOk result (out.new.items ≡ out.old.items ++ verdict_text verdict) }
{
    match verdict {
        Checked::Yes { terms } => {
            push(out, "yes terms ")?;
            push_number(alloc, out, terms as u64)
        }
        Checked::No(fault) => {
            push(out, "no: ")?;
            push_fault(alloc, out, fault)
        }
    }
}

/// The line of a verdict, with its line feed.
pub fn verdict(alloc: Global, verdict: Checked) -> Result<List<u8>, NoMemory>
    ensures { IfOk result (λ text. text ≡ verdict_line verdict) }
{
    let mut out = Vec::new(alloc);
    push_verdict(alloc, &mut out, verdict)?;
    push(&mut out, "\n")?;
    Ok(List::from_vec(out))
}
