//! The lines that tell what was found.
ghost use Rattle.std.specs.Prelude.{◌≡◌, ◌++◌, codes, flat_map, IfOk, OnOk};
ghost use Rattle.su_lex.specs.TokenForms.{sign_bytes};
ghost use Rattle.sysu_place.specs.Replies.{fault_text, in_quotes, kind_text, reply_text};

use std::alloc::Global;
use su_base::parts::{push, push_number};
use su_base::{List, NoMemory};
use su_faults::{Fault, Sort, spelling};
use su_lex::Sign;

fn sign_spelling(sign: Sign) -> &'static str
    ensures { result.now ≡ sign_bytes sign }
{
    match sign {
        Sign::Open => "(",
        Sign::Close => ")",
        Sign::Comma => ",",
        Sign::Dot => ".",
        Sign::Arrow => "->",
        Sign::Equal => "=",
        Sign::NotEqual => "!=",
        Sign::Less => "<",
        Sign::LessEqual => "<=",
        Sign::Greater => ">",
        Sign::GreaterEqual => ">=",
    }
}

fn push_in_quotes(out: &mut Vec<u8>, text: &str) -> Result<(), NoMemory>
    ensures { OnOk result (out.new.items ≡ out.old.items ++ in_quotes text.now) }
{
    push(out, "\"")?;
    push(out, text)?;
    push(out, "\"")
}

/// A kind of token, as the rules of the grammar write it.
fn push_kind(out: &mut Vec<u8>, sort: Sort) -> Result<(), NoMemory>
    ensures { OnOk result (out.new.items ≡ out.old.items ++ kind_text sort) }
{
    match sort {
        Sort::Word(word) => push_in_quotes(out, spelling(word)),
        Sort::Name => push(out, "NAME"),
        Sort::Number => push(out, "NUMBER"),
        Sort::Text => push(out, "TEXT"),
        Sort::Sign(sign) => push_in_quotes(out, sign_spelling(sign)),
        Sort::End => push(out, "END"),
    }
}

/// Each kind behind a space.
fn push_kinds(out: &mut Vec<u8>, sorts: &[Sort]) -> Result<(), NoMemory>
    ensures { OnOk result (out.new.items ≡ out.old.items ++ flat_map (λ sort. codes " " ++ kind_text sort) sorts.now) }
{
    for sort in sorts {
        push(out, " ")?;
        push_kind(out, *sort)?;
    }
    Ok(())
}

/// Where a text goes wrong, and what could have stood there.
fn push_fault(alloc: Global, out: &mut Vec<u8>, fault: &Fault) -> Result<(), NoMemory>
    ensures { OnOk result (out.new.items ≡ out.old.items ++ fault_text fault.now) }
{
    push(out, "place ")?;
    push_number(alloc, out, fault.place as u64)?;
    push(out, "\nwanted")?;
    push_kinds(out, fault.wanted.as_slice())?;
    push(out, "\n")
}

/// What is written where this was found.
pub(crate) fn reply(alloc: Global, found: &Option<Fault>) -> Result<List<u8>, NoMemory>
    ensures { IfOk result (λ bytes. bytes ≡ reply_text found.now) }
{
    let mut out = Vec::new(alloc);
    match found {
        None => push(&mut out, "whole\n")?,
        Some(fault) => push_fault(alloc, &mut out, fault)?,
    }
    Ok(List::from_vec(out))
}
