//! A talk: groups of statements, each answered before more is asked for.
ghost use Rattle.std.specs.Prelude.{◌≡◌, ◌≤◌, ◌<◌, ◌-◌, ◌∷◌, [], ℕ, List as Items, length, IfOk, OnOk, IfErr, true, false, Option, Ok};
ghost use Rattle.su_io.specs.declared.files.File.{File as AFile};
ghost use Rattle.su_io.specs.Ends.{Grew, Stays};
ghost use Rattle.su_stream.specs.Coming.{HasLookedAtAll, IsUpToDate, Holds};
ghost use Rattle.su_talk.specs.Events.Event.{NotKept, NotTold};
ghost use Rattle.su_talk.specs.Keeping.{LeadFromKept, KeepsAsBefore};
ghost use Rattle.su_talk.specs.Statements.{statement_limit};
ghost use Rattle.su_talk.specs.inside.Groups.{keeping, telling};

use crate::answering::{answer, place_of};
use crate::closes::Close;
use crate::company::Company;
use crate::framing::{push_blank, push_reply};
use crate::groups::Group;
use crate::manners::Manner;
use std::alloc::Global;
use std::thread::Threads;
use su_base::{List, NoMemory};
use su_changes::Change;
use su_lex::Span;
use su_par::Gate;
use su_session::Session;
use su_state::Database;
use su_stream::{Piece, Stream};

/// How many bytes one read asks for.
const READ: usize = 1 << 24;

/// How many bytes a statement may have.
const STATEMENT_LIMIT: usize = 1 << 24;

/// How many bytes of replies a group may hold before it ends.
const HELD: usize = 1 << 24;

/// A talk that goes on.
#[derive(Drop)]
pub(crate) struct Talk {
    pub alloc: Global,
    pub manner: Manner,
    pub session: Session,
    pub stream: Stream,
    pub group: Group,
    /// The statements that were answered.
    pub count: u64,
    /// Whether some of them were refused.
    pub refused: bool,
}

/// Whether a piece has more bytes than its limit.
fn is_long(piece: Piece) -> bool
    requires { piece.span.start ≤ piece.span.end }
    ensures long { result ≡ true → statement_limit < piece.span.end - piece.span.start }
    ensures short { result ≡ false → piece.span.end - piece.span.start ≤ statement_limit }
{
    piece.span.end - piece.span.start > STATEMENT_LIMIT
}

/// Room for what one read gives.
fn room(alloc: Global) -> Result<Vec<u8>, NoMemory>
    ensures { IfOk result (λ buffer. 0 < length buffer.items) }
{
    let mut buffer = Vec::new(alloc);
    buffer.resize(READ, 0u8)?;
    Ok(buffer)
}

/// Keeps what a group changed, if it changed anything.
fn keep<C: Company>(
    db: &Database,
    changed: bool,
    changes: List<Change>,
    company: &mut C,
) -> Result<(), Close>
    requires leads { LeadFromKept (C.keeps company.old) changes db.now }
    requires quiet { changed ≡ false → changes ≡ [] }
    ensures files { C.files company.new ≡ C.files company.old }
    ensures kept { OnOk result (LeadFromKept (C.keeps company.new) [] db.now) }
    ensures events { OnOk result (Grew (C.events company.old) (C.events company.new) (keeping changed db.now)) }
    ensures failed { IfErr result (λ close. (close ≡ Close.KeepFault) × Grew (C.events company.old) (C.events company.new) (NotKept db.now ∷ [])) }
{
    if !changed {
        return Ok(());
    }
    match company.keep(db, changes) {
        Ok(()) => Ok(()),
        Err(_) => Err(Close::KeepFault),
    }
}

/// Hands replies over, if there are any.
fn tell<C: Company>(replies: &[u8], company: &mut C) -> Result<(), Close>
    ensures files { C.files company.new ≡ C.files company.old }
    ensures keeps { KeepsAsBefore (C.keeps company.old) (C.keeps company.new) }
    ensures events { OnOk result (Grew (C.events company.old) (C.events company.new) (telling replies.now)) }
    ensures failed { IfErr result (λ close. (close ≡ Close.WriteFault) × Grew (C.events company.old) (C.events company.new) (NotTold replies.now ∷ [])) }
{
    if replies.is_empty() {
        return Ok(());
    }
    match company.tell(replies) {
        Ok(()) => Ok(()),
        Err(_) => Err(Close::WriteFault),
    }
}

impl Talk {
    ghost use Rattle.su_talk.specs.inside.Groups.{IsEmpty, closing, FailsToClose};
    ghost use Rattle.su_talk.specs.inside.Turns.{TakesUp, TakesUpNext, LeadsOn, AnswersPiece, AnswersEnded, Hears, Finishes, Talks};

    /// Keeps what the group changed, and then hands its replies over.
    fn close_group<C: Company>(&mut self, company: &mut C) -> Result<(), Close>
        requires { LeadFromKept (C.keeps company.old) self.old.group.changes self.old.session }
        ensures rest { self.new ≡ record self.old { group = self.new.group } }
        ensures empty { IsEmpty self.new.group }
        ensures files { C.files company.new ≡ C.files company.old }
        ensures kept { OnOk result (LeadFromKept (C.keeps company.new) [] self.old.session) }
        ensures events { OnOk result (Grew (C.events company.old) (C.events company.new) (closing self.old.group self.old.session)) }
        ensures failed { IfErr result (λ close. FailsToClose close self.old.group self.old.session (C.events company.old) (C.events company.new)) }
    {
        let group = std::mem::replace(&mut self.group, Group::new(self.alloc));
        let db = self.session.database();
        match keep(db, group.changed, group.changes, company) {
            Ok(()) => tell(group.replies.as_slice(), company),
            Err(close) => Err(close),
        }
    }

    /// Carries out the statement of a span, and holds its reply back.
    fn answer<R: Threads + Sync, C: Company, G: Gate>(
        &mut self,
        rt: &R,
        piece: Piece,
        company: &mut C,
        gate: &G,
    ) -> Result<(), NoMemory>
        requires holds { Holds self.old.stream piece.span }
        requires statement { piece.blank ≡ false }
        ensures files { C.files company.new ≡ C.files company.old }
        ensures keeps { KeepsAsBefore (C.keeps company.old) (C.keeps company.new) }
        ensures events { Stays (C.events company.old) (C.events company.new) }
        ensures leads { OnOk result (LeadsOn self.old self.new) }
        ensures up { OnOk result (TakesUpNext (C.files company.old) piece self.old self.new) }
    {
        if self.count == u64::MAX {
            return Err(NoMemory);
        }
        let span = piece.span;
        let text = self.stream.text(span);
        let outcome = answer(
            rt,
            self.alloc,
            &mut self.session,
            text,
            self.manner,
            company,
            gate,
        )?;
        let reply = outcome.reply;
        let frames = self.manner.frames;
        let found = place_of(self.alloc, frames, reply.refused, text)?;
        self.group.take(outcome.effect)?;
        self.refused |= reply.refused;
        push_reply(
            self.alloc,
            frames,
            &mut self.group.replies,
            self.count,
            span,
            &reply,
            &found,
        )?;
        self.count += 1;
        Ok(())
    }

    /// Passes over a blank piece.
    fn pass_over(&mut self, piece: Piece) -> Result<(), NoMemory>
        requires { piece.blank ≡ true }
        ensures leads { OnOk result (LeadsOn self.old self.new) }
        ensures up { OnOk result ((files : Option (Items AFile)) (come : Items ℕ) → TakesUp files come piece self.old self.new) }
    {
        let frames = self.manner.frames;
        if frames {
            push_blank(self.alloc, &mut self.group.replies, piece.span)?;
        }
        Ok(())
    }

    /// Takes up one piece.
    fn take_up<R: Threads + Sync, C: Company, G: Gate>(
        &mut self,
        rt: &R,
        piece: Piece,
        company: &mut C,
        gate: &G,
    ) -> Result<(), NoMemory>
        requires { Holds self.old.stream piece.span }
        ensures files { C.files company.new ≡ C.files company.old }
        ensures keeps { KeepsAsBefore (C.keeps company.old) (C.keeps company.new) }
        ensures events { Stays (C.events company.old) (C.events company.new) }
        ensures leads { OnOk result (LeadsOn self.old self.new) }
        ensures up { OnOk result (TakesUpNext (C.files company.old) piece self.old self.new) }
    {
        if piece.blank {
            self.pass_over(piece)
        } else {
            self.answer(rt, piece, company, gate)
        }
    }

    /// Answers a piece that has ended, and ends the group where its replies are many.
    fn answer_piece<R: Threads + Sync, C: Company, G: Gate>(
        &mut self,
        rt: &R,
        piece: Piece,
        company: &mut C,
        gate: &G,
    ) -> Result<(), Close>
        requires holds { Holds self.old.stream piece.span }
        requires leads { LeadFromKept (C.keeps company.old) self.old.group.changes self.old.session }
        ensures files { C.files company.new ≡ C.files company.old }
        ensures leads { OnOk result (LeadFromKept (C.keeps company.new) self.new.group.changes self.new.session) }
        ensures stream { OnOk result (self.new.stream ≡ self.old.stream) }
        ensures manner { OnOk result (self.new.manner ≡ self.old.manner) }
        ensures ends { AnswersPiece (C.files company.old) piece self.old self.new (C.events company.old) (C.events company.new) result }
    {
        if is_long(piece) {
            if let Err(close) = self.close_group(company) {
                return Err(close);
            }
            return Err(Close::TooLong);
        }
        let Ok(()) = self.take_up(rt, piece, company, gate) else {
            return Err(Close::NoMemory);
        };
        if self.group.replies.len() >= HELD {
            return self.close_group(company);
        }
        Ok(())
    }

    /// Answers each piece that has ended, and hands the replies over.
    fn answer_ended<R: Threads + Sync, C: Company, G: Gate>(
        &mut self,
        rt: &R,
        company: &mut C,
        gate: &G,
    ) -> Result<(), Close>
        requires { LeadFromKept (C.keeps company.old) self.old.group.changes self.old.session }
        ensures files { C.files company.new ≡ C.files company.old }
        ensures leads { OnOk result (LeadFromKept (C.keeps company.new) self.new.group.changes self.new.session) }
        ensures same { OnOk result (self.new.manner ≡ self.old.manner) }
        ensures empty { OnOk result (IsEmpty self.new.group) }
        ensures looked { OnOk result (HasLookedAtAll self.new.stream) }
        ensures ended { OnOk result (IsUpToDate self.new.stream) }
        ensures ends { AnswersEnded (C.files company.old) self.old self.new (C.events company.old) (C.events company.new) result }
    {
        while let Some(piece) = self.stream.next() {
            if let Err(close) = self.answer_piece(rt, piece, company, gate) {
                return Err(close);
            }
        }
        if let Err(fault) = self.close_group(company) {
            return Err(fault);
        }
        if is_long(self.stream.last()) {
            return Err(Close::TooLong);
        }
        Ok(())
    }

    /// Asks for input; whether some came.
    fn hear<C: Company>(&mut self, buffer: &mut [u8], company: &mut C) -> Result<bool, Close>
        requires leads { LeadFromKept (C.keeps company.old) self.old.group.changes self.old.session }
        requires empty { IsEmpty self.old.group }
        requires looked { HasLookedAtAll self.old.stream }
        requires ended { IsUpToDate self.old.stream }
        requires room { 0 < length buffer.old }
        ensures files { C.files company.new ≡ C.files company.old }
        ensures leads { OnOk result (LeadFromKept (C.keeps company.new) self.new.group.changes self.new.session) }
        ensures same { self.new ≡ record self.old { stream = self.new.stream } }
        ensures looked { result ≡ Ok false → HasLookedAtAll self.new.stream }
        ensures ends { Hears (C.files company.old) self.old self.new (C.events company.old) (C.events company.new) result }
    {
        let Ok(count) = company.ask(buffer) else {
            return Err(Close::InputFault);
        };
        if count == 0 {
            return Ok(false);
        }
        let Ok(()) = self.stream.push(&buffer[..count]) else {
            return Err(Close::NoMemory);
        };
        Ok(true)
    }

    /// Answers what has ended, and asks for more; whether some came.
    fn turn<R: Threads + Sync, C: Company, G: Gate>(
        &mut self,
        rt: &R,
        buffer: &mut [u8],
        company: &mut C,
        gate: &G,
    ) -> Result<bool, Close>
        requires leads { LeadFromKept (C.keeps company.old) self.old.group.changes self.old.session }
        requires room { 0 < length buffer.old }
        ensures files { C.files company.new ≡ C.files company.old }
        ensures leads { OnOk result (LeadFromKept (C.keeps company.new) self.new.group.changes self.new.session) }
        ensures manner { OnOk result (self.new.manner ≡ self.old.manner) }
        ensures empty { OnOk result (IsEmpty self.new.group) }
        ensures looked { result ≡ Ok false → HasLookedAtAll self.new.stream }
        ensures ends { Hears (C.files company.old) self.old self.new (C.events company.old) (C.events company.new) result }
    {
        if let Err(close) = self.answer_ended(rt, company, gate) {
            return Err(close);
        }
        self.hear(buffer, company)
    }

    /// Answers the text that the end of the input ends, but not where replies stand in frames.
    fn finish<R: Threads + Sync, C: Company, G: Gate>(
        &mut self,
        rt: &R,
        company: &mut C,
        gate: &G,
    ) -> Result<(), Close>
        requires leads { LeadFromKept (C.keeps company.old) self.old.group.changes self.old.session }
        requires empty { IsEmpty self.old.group }
        requires looked { HasLookedAtAll self.old.stream }
        ensures ends { Finishes (C.files company.old) self.old self.new (C.events company.old) (C.events company.new) result }
    {
        let framed = self.manner.frames;
        if framed {
            return Ok(());
        }
        let last = self.stream.last();
        match self.answer_piece(rt, last, company, gate) {
            Ok(()) => self.close_group(company),
            Err(close) => Err(close),
        }
    }

    /// Answers what has come, and asks for more, up to the end of the input.
    pub fn go_on<R: Threads + Sync, C: Company, G: Gate>(
        &mut self,
        rt: &R,
        company: &mut C,
        gate: &G,
    ) -> Result<(), Close>
        requires kept { C.keeps company.old self.old.session }
        requires unchanged { self.old.group.changes ≡ [] }
        ensures { Talks (C.files company.old) self.old self.new (C.events company.old) (C.events company.new) result }
    {
        let Ok(mut buffer) = room(self.alloc) else {
            return Err(Close::NoMemory);
        };
        for _turn in 0..u64::MAX {
            match self.turn(rt, buffer.as_mut_slice(), company, gate) {
                Ok(true) => {}
                Ok(false) => return self.finish(rt, company, gate),
                Err(close) => return Err(close),
            }
        }
        Err(Close::NoMemory)
    }
}
