//! The lines that tell programs where a reply begins and ends.
ghost use Rattle.std.specs.Prelude.{◌≡◌, ◌++◌, true, OnOk};
ghost use Rattle.su_places.specs.Laws.{told};
ghost use Rattle.su_talk.specs.Entries.{text_of, reply_head, reply_line, verdict_of};
ghost use Rattle.su_talk.specs.Entries.Entry.{Answer, Blank};

use std::alloc::Global;
use su_base::NoMemory;
use su_faults::Fault;
use su_lex::Span;
use su_places::push_place;
use su_session::Reply;

/// Adds `blank FROM TO`, for a piece of white space and comments alone.
pub(crate) fn push_blank(alloc: Global, out: &mut Vec<u8>, span: Span) -> Result<(), NoMemory>
    ensures { OnOk result (out.new.items ≡ out.old.items ++ text_of true 0 (Blank span)) }
{
    let from = span.start;
    let to = span.end;
    let line = format!(in alloc; "blank {from} {to}\n")?;
    out.extend_from_slice(line.as_str().as_bytes())?;
    Ok(())
}

fn verdict(reply: &Reply) -> &'static str
    ensures { result.now ≡ verdict_of reply.now }
{
    if reply.refused { "refused" } else { "accepted" }
}

/// Adds `reply K FROM TO LENGTH `.
fn push_head(
    alloc: Global,
    out: &mut Vec<u8>,
    number: u64,
    span: Span,
    reply: &Reply,
) -> Result<(), NoMemory>
    ensures { OnOk result (out.new.items ≡ out.old.items ++ reply_head number span reply.now) }
{
    let from = span.start;
    let to = span.end;
    let length = reply.bytes.len();
    let line = format!(in alloc; "reply {number} {from} {to} {length} ")?;
    out.extend_from_slice(line.as_str().as_bytes())?;
    Ok(())
}

/// Adds `reply K FROM TO LENGTH accepted` or `refused`.
fn push_verdict(
    alloc: Global,
    out: &mut Vec<u8>,
    number: u64,
    span: Span,
    reply: &Reply,
) -> Result<(), NoMemory>
    ensures { OnOk result (out.new.items ≡ out.old.items ++ (reply_head number span reply.now ++ verdict_of reply.now)) }
{
    push_head(alloc, out, number, span, reply)?;
    out.extend_from_slice(verdict(reply).as_bytes())?;
    Ok(())
}

/// Adds where a refused statement goes wrong, with the place in the input.
fn push_found(
    alloc: Global,
    out: &mut Vec<u8>,
    span: Span,
    found: &Option<Fault>,
) -> Result<(), NoMemory>
    ensures { OnOk result (out.new.items ≡ out.old.items ++ told span.start found.now) }
{
    match found {
        Some(fault) => push_place(alloc, out, span.start, fault),
        None => Ok(()),
    }
}

/// Adds that, and the end of the line.
fn push_line(
    alloc: Global,
    out: &mut Vec<u8>,
    number: u64,
    span: Span,
    reply: &Reply,
    found: &Option<Fault>,
) -> Result<(), NoMemory>
    ensures { OnOk result (out.new.items ≡ out.old.items ++ reply_line number span reply.now found.now) }
{
    push_verdict(alloc, out, number, span, reply)?;
    push_found(alloc, out, span, found)?;
    out.extend_from_slice(b"\n")?;
    Ok(())
}

/// Adds the line of a reply, and the reply.
fn push_framed(
    alloc: Global,
    out: &mut Vec<u8>,
    number: u64,
    span: Span,
    reply: &Reply,
    found: &Option<Fault>,
) -> Result<(), NoMemory>
    ensures { OnOk result (out.new.items ≡ out.old.items ++ text_of true number (Answer span reply.now found.now)) }
{
    push_line(alloc, out, number, span, reply, found)?;
    out.extend_from_slice(reply.bytes.as_slice())?;
    Ok(())
}

/// Adds a reply, in a frame or without.
pub(crate) fn push_reply(
    alloc: Global,
    frames: bool,
    out: &mut Vec<u8>,
    number: u64,
    span: Span,
    reply: &Reply,
    found: &Option<Fault>,
) -> Result<(), NoMemory>
    ensures { OnOk result (out.new.items ≡ out.old.items ++ text_of frames number (Answer span reply.now found.now)) }
{
    if frames {
        return push_framed(alloc, out, number, span, reply, found);
    }
    out.extend_from_slice(reply.bytes.as_slice())?;
    Ok(())
}
