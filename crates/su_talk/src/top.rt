//! The talk as a whole.
ghost use Rattle.su_talk.specs.Talked.{HasTalked};

use crate::closes::Close;
use crate::company::Company;
use crate::groups::Group;
use crate::manners::Manner;
use crate::talking::Talk;
use std::alloc::Global;
use std::thread::Threads;
use su_par::Gate;
use su_session::Session;
use su_stream::Stream;

/// Talks with the company, from this session on, up to the end of the input or to what ends it before.
///
/// Each statement is answered as in a run, on the database that the ones before it left, but that a load
/// whose file isn't there for it is refused by a line. A reply is told once what its statement changed is
/// kept, and whenever more input is asked for, each statement that has ended is answered, its reply told,
/// and what it changed kept. It takes memory for what one read gives, for the text that is still open, and for the
/// replies and changes of a group.
pub fn talk<R: Threads + Sync, C: Company, G: Gate>(
    rt: &R,
    alloc: Global,
    session: Session,
    manner: Manner,
    company: &mut C,
    gate: &G,
) -> Close
    requires { C.keeps company.old session }
    ensures { HasTalked manner.frames (C.files company.old) session (C.events company.old) (C.events company.new) result }
{
    let mut talk = Talk {
        alloc,
        manner,
        session,
        stream: Stream::new(alloc),
        group: Group::new(alloc),
        count: 0,
        refused: false,
    };
    match talk.go_on(rt, company, gate) {
        Err(close) => close,
        Ok(()) if talk.refused => Close::SomeRefused,
        Ok(()) => Close::Done,
    }
}
