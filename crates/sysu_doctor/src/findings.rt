//! What is found, line behind line.
ghost use Rattle.std.specs.Prelude.{◌≡◌, ◌||◌, ◌++◌, [], IfOk, OnOk, false};
ghost use Rattle.sysu_doctor.specs.Refusals.{refusal_line as line_of_refusal};

use std::alloc::Global;
use su_base::parts::{push, push_number};
use su_base::{List, NoMemory};
use su_session::Reply;

/// Lines, and whether one of them is a fault.
#[derive(Drop)]
pub struct Findings {
    pub fault: bool,
    pub lines: List<u8>,
}

/// The line of the reply to the statement with this number, where it is a refusal.
fn refusal_line(alloc: Global, number: u64, reply: &Reply) -> Result<List<u8>, NoMemory>
    ensures { IfOk result (λ line. line ≡ line_of_refusal number reply.now) }
{
    let mut line = Vec::new(alloc);
    if reply.refused {
        push(&mut line, "fault statement ")?;
        push_number(alloc, &mut line, number)?;
        push(&mut line, " is ")?;
        line.extend_from_slice(reply.bytes.as_slice())?;
    }
    Ok(List::from_vec(line))
}

impl Findings {
    /// Nothing yet.
    pub(crate) fn none(alloc: Global) -> Findings
        ensures fault { result.fault ≡ false }
        ensures lines { result.lines ≡ [] }
    {
        Findings {
            fault: false,
            lines: List::new(alloc),
        }
    }

    /// Adds lines at the end.
    pub(crate) fn add(&mut self, fault: bool, lines: List<u8>) -> Result<(), NoMemory>
        ensures fault { OnOk result (self.new.fault ≡ (self.old.fault || fault)) }
        ensures lines { OnOk result (self.new.lines ≡ self.old.lines ++ lines) }
    {
        self.lines.append(lines)?;
        self.fault |= fault;
        Ok(())
    }

    /// Adds the reply to the statement with this number, where it is a refusal.
    pub(crate) fn add_reply(
        &mut self,
        alloc: Global,
        number: u64,
        reply: &Reply,
    ) -> Result<(), NoMemory>
        ensures fault { OnOk result (self.new.fault ≡ (self.old.fault || reply.now.refused)) }
        ensures lines { OnOk result (self.new.lines ≡ self.old.lines ++ line_of_refusal number reply.now) }
    {
        let line = refusal_line(alloc, number, reply)?;
        self.add(reply.refused, line)
    }
}
