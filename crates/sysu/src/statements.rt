//! The statements of a script, answered one after another.
ghost use Rattle.std.specs.Prelude.{◌≡◌, ◌≤◌, ℕ, List as Items, Some, option_map};
ghost use Rattle.su_io.specs.Moments.{Moment};
ghost use Rattle.su_session.specs.Commands.{IsRead};
ghost use Rattle.sysu.specs.inside.ScriptAnswers.{AnswersScript};
ghost use Rattle.sysu.specs.inside.HandedFiles.{HandingEnds, LoadingEnds};
ghost use Rattle.sysu.specs.inside.Turns.{TurnEnds};

use std::alloc::Global;
use std::thread::Threads;
use su_base::{List, Str};
use su_io::{Outside, Shelf, Sink, Status};
use su_lex::cut;
use su_par::Gate;
use su_session::{Command, Session, Want, read};

const LOAD_LIMIT: u64 = 1 << 26;

/// Reads the file of a load, once all that is written is handed over.
fn read_load<H: Shelf, K: Sink>(
    alloc: Global,
    path: Str,
    outside: &mut Outside<H, K>,
) -> Result<List<u8>, Status>
    ensures files { outside.new.files ≡ outside.old.files }
    ensures ends { LoadingEnds path outside.old outside.new result }
{
    match outside.flush() {
        Ok(()) => outside.read(alloc, path, LOAD_LIMIT),
        Err(_) => Err(Status::WriteFault),
    }
}

/// The bytes of the file that the command wants.
fn handed<H: Shelf, K: Sink>(
    alloc: Global,
    session: &Session,
    command: &Command,
    outside: &mut Outside<H, K>,
) -> Result<Option<List<u8>>, Status>
    ensures files { outside.new.files ≡ outside.old.files }
    ensures ends { (text : Items ℕ) → IsRead text command.now → HandingEnds session.now text outside.old outside.new result }
{
    match session.wants(command) {
        Ok(Want::Nothing) => Ok(None),
        Ok(Want::File(path)) => {
            let bytes = read_load(alloc, path, outside)?;
            Ok(Some(bytes))
        }
        Err(_) => Err(Status::NoMemory),
    }
}

fn bytes_of(file: &Option<List<u8>>) -> Option<&[u8]>
    ensures { option_map (λ bytes. bytes.now) result ≡ file.now }
{
    match file {
        Some(bytes) => Some(bytes.as_slice()),
        None => None,
    }
}

/// Answers one statement and writes its reply; whether it was refused, or how the run ends.
fn answer_one<R: Threads + Sync, H: Shelf, K: Sink, G: Gate>(
    rt: &R,
    alloc: Global,
    session: &mut Session,
    text: &[u8],
    workers: u8,
    outside: &mut Outside<H, K>,
    gate: &G,
) -> Result<bool, Status>
    requires least { 1 ≤ workers }
    requires most { workers ≤ 16 }
    ensures files { outside.new.files ≡ outside.old.files }
    ensures ends { TurnEnds session.old text.now session.new outside.old outside.new result }
{
    let Ok(command) = read(alloc, text) else {
        return Err(Status::NoMemory);
    };
    let file = handed(alloc, session, &command, outside)?;
    let Ok(reply) = session.carry_out(rt, command, bytes_of(&file), workers, gate) else {
        return Err(Status::NoMemory);
    };
    match outside.write(reply.bytes.as_slice()) {
        Ok(()) => Ok(reply.refused),
        Err(_) => Err(Status::WriteFault),
    }
}

/// Writes the replies to a script's statements in order, each by one whole write. The file of a load
/// is read when its statement is reached, and begun once the replies before it are handed over.
pub(crate) fn answer_all<R: Threads + Sync, H: Shelf, K: Sink, G: Gate>(
    rt: &R,
    alloc: Global,
    session: Session,
    script: &[u8],
    workers: u8,
    outside: &mut Outside<H, K>,
    gate: &G,
) -> Status
    requires least { 1 ≤ workers }
    requires most { workers ≤ 16 }
    ensures files { outside.new.files ≡ outside.old.files }
    ensures ends { AnswersScript session script.now outside.old outside.new result }
{
    let mut session = session;
    let Ok(spans) = cut(alloc, script) else {
        return Status::NoMemory;
    };
    let mut refused = false;
    for span in spans.as_slice() {
        match answer_one(
            rt,
            alloc,
            &mut session,
            &script[span.start..span.end],
            workers,
            outside,
            gate,
        ) {
            Ok(told) => refused |= told,
            Err(status) => return status,
        }
    }
    if refused {
        return Status::SomeRefused;
    }
    Status::Done
}
