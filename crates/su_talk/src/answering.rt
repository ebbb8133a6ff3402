//! One statement answered.
ghost use Rattle.std.specs.Prelude.{◌&&◌, ◌≡◌, IfOk, option_map};
ghost use Rattle.su_effects.specs.Effects.{Makes};
ghost use Rattle.su_io.specs.Ends.{Stays};
ghost use Rattle.su_session.specs.Commands.{WasRead, RepliedTo};
ghost use Rattle.su_state.specs.DatabaseValue.{IsWellKept};
ghost use Rattle.su_talk.specs.Answers.{IsLine, IsPlaced};
ghost use Rattle.su_talk.specs.Keeping.{KeepsAsBefore};
ghost use Rattle.su_talk.specs.inside.Effects.{ComesOf, ComesOfLoad};

use crate::company::Company;
use crate::manners::Manner;
use std::alloc::Global;
use std::thread::Threads;
use su_base::{List, NoMemory, Str};
use su_effects::{Effect, effect_of};
use su_faults::{Fault, script_fault};
use su_io::ReadEnd;
use su_par::Gate;
use su_session::{Command, Reply, Session, Want, read};

/// How many bytes the file of a load may have.
const LOAD_LIMIT: u64 = 1 << 26;

/// What came of a statement: its reply, and what it changed.
#[derive(Drop)]
pub(crate) struct Outcome {
    pub reply: Reply,
    pub effect: Effect,
}

/// The line for a load whose file isn't there for it.
fn line(alloc: Global, what: &str, path: &Str) -> Result<Reply, NoMemory>
    ensures { IfOk result (λ reply. IsLine what.now path.now reply) }
{
    let mut bytes = Vec::new(alloc);
    bytes.extend_from_slice(what.as_bytes())?;
    bytes.extend_from_slice(path.as_str().as_bytes())?;
    bytes.extend_from_slice(b"\n")?;
    Ok(Reply {
        refused: true,
        bytes: List::from_vec(bytes),
    })
}

/// The line alone; nothing changes.
fn refused(alloc: Global, what: &str, path: &Str) -> Result<Outcome, NoMemory>
    ensures line { IfOk result (λ outcome. IsLine what.now path.now outcome.reply) }
    ensures none { IfOk result (λ outcome. outcome.effect ≡ Effect.Nothing) }
{
    let reply = line(alloc, what, path)?;
    Ok(Outcome {
        reply,
        effect: Effect::Nothing,
    })
}

/// Where a refused text goes wrong first, in frames; none where it has a form.
pub(crate) fn place_of(
    alloc: Global,
    frames: bool,
    refused: bool,
    text: &[u8],
) -> Result<Option<Fault>, NoMemory>
    ensures { IfOk result (λ found. IsPlaced (frames && refused) text.now found) }
{
    if frames && refused {
        return script_fault(alloc, text);
    }
    Ok(None)
}

/// Does what was read, on the bytes of its file. What is refused has changed nothing.
fn carry_out<R: Threads + Sync, G: Gate>(
    rt: &R,
    alloc: Global,
    session: &mut Session,
    command: Command,
    file: Option<&[u8]>,
    manner: Manner,
    gate: &G,
) -> Result<Outcome, NoMemory>
    requires { WasRead command }
    ensures replied { IfOk result (λ outcome. RepliedTo session.old command (option_map (λ bytes. bytes.now) file.entry) outcome.reply session.new) }
    ensures makes { IfOk result (λ outcome. Makes outcome.effect session.old session.new) }
{
    let effect = effect_of(alloc, session.database(), &command, file)?;
    let reply = session.carry_out(rt, command, file, manner.workers, gate)?;
    if reply.refused {
        return Ok(Outcome {
            reply,
            effect: Effect::Nothing,
        });
    }
    Ok(Outcome { reply, effect })
}

/// What comes of a load from this file.
fn load<R: Threads + Sync, C: Company, G: Gate>(
    rt: &R,
    alloc: Global,
    session: &mut Session,
    command: Command,
    path: Str,
    manner: Manner,
    company: &mut C,
    gate: &G,
) -> Result<Outcome, NoMemory>
    requires { WasRead command }
    ensures files { C.files company.new ≡ C.files company.old }
    ensures keeps { KeepsAsBefore (C.keeps company.old) (C.keeps company.new) }
    ensures events { Stays (C.events company.old) (C.events company.new) }
    ensures comes { IfOk result (λ outcome. ComesOfLoad (C.files company.old) path command session.old outcome session.new) }
{
    match company.file(alloc, path.copy(alloc)?, LOAD_LIMIT) {
        Ok(bytes) => {
            let file = Some(bytes.as_slice());
            let outcome = carry_out(rt, alloc, session, command, file, manner, gate)?;
            Ok(outcome)
        }
        Err(ReadEnd::Failed) => {
            let outcome = refused(alloc, "can't read ", &path)?;
            Ok(outcome)
        }
        Err(ReadEnd::TooLong) => {
            let outcome = refused(alloc, "file too long ", &path)?;
            Ok(outcome)
        }
        Err(ReadEnd::NoMemory) => Err(NoMemory),
    }
}

/// What comes of a statement.
pub(crate) fn answer<R: Threads + Sync, C: Company, G: Gate>(
    rt: &R,
    alloc: Global,
    session: &mut Session,
    text: &[u8],
    manner: Manner,
    company: &mut C,
    gate: &G,
) -> Result<Outcome, NoMemory>
    ensures files { C.files company.new ≡ C.files company.old }
    ensures keeps { KeepsAsBefore (C.keeps company.old) (C.keeps company.new) }
    ensures events { Stays (C.events company.old) (C.events company.new) }
    ensures kept { IsWellKept session.old }
    ensures comes { IfOk result (λ outcome. ComesOf (C.files company.old) text.now session.old outcome session.new) }
{
    session.database().keeps_its_rules();
    let command = read(alloc, text)?;
    match session.wants(&command)? {
        Want::Nothing => {
            let outcome = carry_out(rt, alloc, session, command, None, manner, gate)?;
            Ok(outcome)
        }
        Want::File(path) => {
            let outcome = load(rt, alloc, session, command, path, manner, company, gate)?;
            Ok(outcome)
        }
    }
}
