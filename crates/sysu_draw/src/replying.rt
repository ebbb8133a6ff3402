//! The reply to a text.
ghost use Rattle.std.specs.Prelude.{◌≡◌, ◌≢◌, ◌⊎◌, IfOk, IfErr};
ghost use Rattle.su_io.specs.Moments.{Moment};
ghost use Rattle.su_io.specs.Programs.{UsageEnds};
ghost use Rattle.su_explained.specs.LineFaults.{IsFaultOf};
ghost use Rattle.sysu_draw.specs.Replies.{IsDrawing, IsReply, fault_line, usage_line};
ghost use Rattle.sysu_draw.specs.inside.Tellings.{ReplyEnds};

use std::alloc::Global;
use su_base::{List, NoMemory};
use su_draw::{kept_picture_of, picture_of};
use su_explained::Fault;
use su_io::{Outside, Shelf, Sink, Status};

/// What is written for a text, and the status of a run that writes it.
#[derive(Drop)]
struct Reply {
    status: Status,
    bytes: List<u8>,
}

/// The line that tells a line at fault.
fn fault_reply(alloc: Global, number: usize) -> Result<List<u8>, NoMemory>
    ensures { IfOk result (λ bytes. bytes ≡ fault_line number) }
{
    let line = format!(in alloc; "refused: line {number}\n")?;
    Ok(List::from_vec(line.into_bytes()))
}

/// The picture of a text, or of its kept rows alone.
fn drawing_of(alloc: Global, kept: bool, text: &[u8]) -> Result<List<u8>, Fault>
    ensures picture { IfOk result (IsDrawing kept text.now) }
    ensures fault { IfErr result (λ fault. (fault ≡ Fault.NoMemory) ⊎ IsFaultOf text.now fault) }
{
    if kept {
        return kept_picture_of(alloc, text);
    }
    picture_of(alloc, text)
}

fn reply_to(alloc: Global, kept: bool, text: &[u8]) -> Result<Reply, NoMemory>
    ensures reply { IfOk result (λ reply. IsReply kept text.now reply.status reply.bytes) }
    ensures status { IfOk result (λ reply. reply.status ≢ Status.WriteFault) }
{
    match drawing_of(alloc, kept, text) {
        Ok(bytes) => Ok(Reply {
            status: Status::Done,
            bytes,
        }),
        Err(Fault::Line(number)) => {
            let bytes = fault_reply(alloc, number)?;
            Ok(Reply {
                status: Status::SomeRefused,
                bytes,
            })
        }
        Err(Fault::NoMemory) => Err(NoMemory),
    }
}

/// Writes the reply to a text.
pub(crate) fn draw_text<H: Shelf, K: Sink>(
    alloc: Global,
    kept: bool,
    text: &[u8],
    outside: &mut Outside<H, K>,
) -> Status
    ensures { ReplyEnds kept text.now outside.old outside.new result }
{
    match reply_to(alloc, kept, text) {
        Ok(reply) => outside.tell(reply.bytes.as_slice(), reply.status),
        Err(NoMemory) => Status::NoMemory,
    }
}

const USAGE: &str = "usage: sysu_draw [--kept] FILE\n";

/// Writes the usage line.
pub(crate) fn tell_usage<H: Shelf, K: Sink>(outside: &mut Outside<H, K>) -> Status
    ensures files { outside.new.files ≡ outside.old.files }
    ensures ends { UsageEnds usage_line outside.old outside.new result }
{
    outside.tell(USAGE.as_bytes(), Status::Usage)
}
