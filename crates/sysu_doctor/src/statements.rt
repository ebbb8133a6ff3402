//! The statements of a script, each answered on what those before it left. Of their replies the refusals are told.
ghost use Rattle.std.specs.Prelude.{◌≡◌, ℕ, List as Items, option_map};
ghost use Rattle.su_io.specs.Moments.{Moment};
ghost use Rattle.su_session.specs.Commands.{IsRead};
ghost use Rattle.sysu_doctor.specs.inside.Turns.{OnlyReads, HandingEnds, TurnEnds, ScriptEnds};

use crate::findings::Findings;
use std::alloc::Global;
use std::thread::Threads;
use su_base::List;
use su_io::{Outside, Shelf, Sink, Status};
use su_lex::cut;
use su_par::Gate;
use su_session::{Command, Reply, Session, Want, read};

/// How many bytes the file of a load may have.
const LOAD_LIMIT: u64 = 1 << 26;

/// The bytes of the file that the command wants.
fn handed<H: Shelf, K: Sink>(
    alloc: Global,
    session: &Session,
    command: &Command,
    outside: &mut Outside<H, K>,
) -> Result<Option<List<u8>>, Status>
    ensures rest { OnlyReads outside.old outside.new }
    ensures ends { (text : Items ℕ) → IsRead text command.now → HandingEnds session.now text outside.old outside.new result }
{
    match session.wants(command) {
        Ok(Want::Nothing) => Ok(None),
        Ok(Want::File(path)) => {
            let bytes = outside.read(alloc, path, LOAD_LIMIT)?;
            Ok(Some(bytes))
        }
        Err(_) => Err(Status::NoMemory),
    }
}

fn bytes_of(file: &Option<List<u8>>) -> Option<&[u8]>
    ensures { option_map (λ bytes. bytes.now) result ≡ file.now }
{
    match file {
        Some(bytes) => Some(bytes.as_slice()),
        None => None,
    }
}

/// Answers one statement; the reply, or how the run ends.
fn answer_one<R: Threads + Sync, H: Shelf, K: Sink, G: Gate>(
    rt: &R,
    alloc: Global,
    session: &mut Session,
    text: &[u8],
    outside: &mut Outside<H, K>,
    gate: &G,
) -> Result<Reply, Status>
    ensures rest { OnlyReads outside.old outside.new }
    ensures ends { TurnEnds session.old text.now session.new outside.old outside.new result }
{
    let Ok(command) = read(alloc, text) else {
        return Err(Status::NoMemory);
    };
    let file = handed(alloc, session, &command, outside)?;
    match session.carry_out(rt, command, bytes_of(&file), 1, gate) {
        Ok(reply) => Ok(reply),
        Err(_) => Err(Status::NoMemory),
    }
}

/// Answers all statements of the script; the lines of those that are refused, or how the run ends.
pub(crate) fn answer_all<R: Threads + Sync, H: Shelf, K: Sink, G: Gate>(
    rt: &R,
    alloc: Global,
    session: &mut Session,
    script: &[u8],
    outside: &mut Outside<H, K>,
    gate: &G,
) -> Result<Findings, Status>
    ensures rest { OnlyReads outside.old outside.new }
    ensures ends { ScriptEnds session.old script.now session.new outside.old outside.new result }
{
    let Ok(spans) = cut(alloc, script) else {
        return Err(Status::NoMemory);
    };
    let mut found = Findings::none(alloc);
    for (k, span) in spans.as_slice().iter().enumerate() {
        let text = &script[span.start..span.end];
        let reply = answer_one(rt, alloc, session, text, outside, gate)?;
        let Ok(()) = found.add_reply(alloc, k as u64 + 1, &reply) else {
            return Err(Status::NoMemory);
        };
    }
    Ok(found)
}
