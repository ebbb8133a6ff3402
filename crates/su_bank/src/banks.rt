//! What four queries find in the bank.
ghost use Rattle.std.specs.Prelude.{◌≤◌, IfOk, OnOk};
ghost use Rattle.su_bank.specs.Banks.{TakesScript, Finds, IsBankText};
ghost use Rattle.su_bank.specs.inside.FourQueries.{TellsFour};

use crate::lines::found_line;
use crate::scripts::bank_script;
use std::alloc::Global;
use std::thread::Threads;
use su_base::{List, NoMemory};
use su_lex::cut;
use su_par::Gate;
use su_schema::Schema;
use su_session::Session;

/// Answers the statements of a script, one after another.
fn take_script<R: Threads + Sync, G: Gate>(
    rt: &R,
    alloc: Global,
    session: &mut Session,
    script: &[u8],
    gate: &G,
) -> Result<(), NoMemory>
    ensures { OnOk result (TakesScript session.old script.now session.new) }
{
    let spans = cut(alloc, script)?;
    for span in spans.as_slice() {
        session.step(rt, &script[span.start..span.end], None, 1, gate)?;
    }
    Ok(())
}

/// Explains the query and answers it, and gives its line.
fn find<R: Threads + Sync, G: Gate>(
    rt: &R,
    alloc: Global,
    session: &mut Session,
    number: u32,
    query: &str,
    gate: &G,
) -> Result<Vec<u8>, NoMemory>
    ensures { IfOk result (λ line. Finds session.old number query.now line.items session.new) }
{
    let asked = format!(in alloc; "explain {query}")?;
    let explained = session.step(rt, asked.as_str().as_bytes(), None, 1, gate)?;
    let answered = session.step(rt, query.as_bytes(), None, 1, gate)?;
    found_line(
        alloc,
        number,
        explained.bytes.as_slice(),
        answered.bytes.as_slice(),
    )
}

/// Tells of the four queries, one after another.
fn push_lines<R: Threads + Sync, G: Gate>(
    rt: &R,
    alloc: Global,
    session: &mut Session,
    text: &mut Vec<u8>,
    gate: &G,
) -> Result<(), NoMemory>
    ensures { OnOk result (TellsFour session.old text.old.items session.new text.new.items) }
{
    let banks = find(
        rt,
        alloc,
        session,
        1,
        "retrieve (BANK) where CUST = 'C7'",
        gate,
    )?;
    let customers = find(rt, alloc, session, 2, "retrieve (CUST, ADDR)", gate)?;
    let neighbours = find(
        rt,
        alloc,
        session,
        3,
        "retrieve (t.CUST) where CUST = 'C7' and BANK = t.BANK",
        gate,
    )?;
    let balances = find(
        rt,
        alloc,
        session,
        4,
        "retrieve (ACCT, BAL) where BAL > 5000",
        gate,
    )?;
    text.extend_from_slice(&banks)?;
    text.extend_from_slice(&customers)?;
    text.extend_from_slice(&neighbours)?;
    text.extend_from_slice(&balances)?;
    Ok(())
}

/// What is told of a bank with n rows in each relation: how many terms, kept terms and rows each of
/// four queries has in it. One worker does it all.
pub fn bank_text<R: Threads + Sync, G: Gate>(
    rt: &R,
    alloc: Global,
    n: u32,
    gate: &G,
) -> Result<List<u8>, NoMemory>
    requires { n ≤ 1000 }
    ensures { IfOk result (IsBankText n) }
{
    let mut session = Session::open(alloc, Schema::new(alloc))?;
    let script = bank_script(alloc, n)?;
    take_script(rt, alloc, &mut session, script.as_str().as_bytes(), gate)?;
    let mut text = format!(in alloc; "bank {n}\n")?.into_bytes();
    push_lines(rt, alloc, &mut session, &mut text, gate)?;
    Ok(List::from_vec(text))
}
