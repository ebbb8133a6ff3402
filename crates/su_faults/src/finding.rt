//! The first place where a text goes wrong.
ghost use Rattle.std.specs.Prelude.{◌≡◌, ◌+◌, ◌<◌, ◌≤◌, ◌^◌, ◌↔◌, map, length, IfOk, IsTrue};
ghost use Rattle.su_faults.specs.Faults.{Tells};
ghost use Rattle.su_faults.specs.Languages.{AreDefinition, AreEither, AreStatement};
ghost use Rattle.su_faults.specs.inside.Machine.{Accepts, HasChoice, IsEnd, choices_of, started};
ghost use Rattle.su_faults.specs.inside.Steps.{IsNext};

use crate::blanks::after_blanks;
use crate::choosing::{choices, chosen, moved};
use crate::faults::Fault;
use crate::firsts::first;
use crate::sorts::Sort;
use crate::spots::{Choice, Frame, Language, Spot, State};
use std::alloc::Global;
use su_base::{List, NoMemory};

/// Before the first token.
fn start(language: Language) -> State
    ensures { result ≡ started language }
{
    State {
        spot: Spot::Start(language),
        frame: Frame::Alone,
        level: 0,
    }
}

/// The kinds of tokens that may come next.
fn wanted(alloc: Global, choices: &[Choice]) -> Result<List<Sort>, NoMemory>
    ensures { IfOk result (λ sorts. sorts ≡ map (λ c. c.0) choices.now) }
{
    let mut sorts = List::new(alloc);
    for choice in choices {
        sorts.push(choice.0)?;
    }
    Ok(sorts)
}

/// Whether nothing more may come.
fn may_end(choices: &[Choice]) -> bool
    ensures { IsTrue result ↔ HasChoice (λ c. IsEnd c.0) choices.now }
{
    match chosen(choices, Sort::End) {
        Some(_) => true,
        None => false,
    }
}

/// The state behind the first token, and how many bytes that takes; none where no such token may come.
fn next(alloc: Global, state: &State, rest: &[u8]) -> Result<Option<(State, usize)>, NoMemory>
    requires { state.now.level + 1 < 2 ^ 64 }
    ensures { IfOk result (IsNext state.now rest.now) }
{
    match first(alloc, rest)? {
        None => Ok(None),
        Some((sort, n)) => match chosen(choices(state), sort) {
            Some(step) => Ok(Some((moved(state, step), n))),
            None => Ok(None),
        },
    }
}

/// What could have stood in this state, at this place.
fn fault(alloc: Global, state: &State, place: usize) -> Result<Fault, NoMemory>
    ensures place { IfOk result (λ fault. fault.place ≡ place) }
    ensures wanted { IfOk result (λ fault. fault.wanted ≡ map (λ c. c.0) (choices_of state.now)) }
{
    let wanted = wanted(alloc, choices(state))?;
    Ok(Fault { place, wanted })
}

/// How many bytes stand before the rest.
fn before(text: &[u8], rest: &[u8]) -> usize
    requires { length rest.now ≤ length text.now }
    ensures place { result + length rest.now ≡ length text.now }
    ensures fits { length text.now < 2 ^ 64 }
{
    text.len() - rest.len()
}

/// The first place where the text goes wrong; none where it has a form.
fn first_fault(alloc: Global, language: Language, text: &[u8]) -> Result<Option<Fault>, NoMemory>
    ensures { IfOk result (Tells (λ symbols. Accepts symbols (started language)) text.now) }
{
    let mut state = start(language);
    let mut rest = after_blanks(text);
    while !rest.is_empty() {
        let place = before(text, rest);
        match next(alloc, &state, rest)? {
            Some((behind, n)) => {
                state = behind;
                rest = after_blanks(&rest[n..]);
            }
            None => return Ok(Some(fault(alloc, &state, place)?)),
        }
    }
    if may_end(choices(&state)) {
        return Ok(None);
    }
    Ok(Some(fault(alloc, &state, text.len())?))
}

/// Where the text of a definition goes wrong first, as in a schema file; none where it is a definition.
pub fn definition_fault(alloc: Global, text: &[u8]) -> Result<Option<Fault>, NoMemory>
    ensures { IfOk result (Tells AreDefinition text.now) }
{
    first_fault(alloc, Language::Definitions, text)
}

/// Where the text of a statement goes wrong first; none where it is a statement.
pub fn statement_fault(alloc: Global, text: &[u8]) -> Result<Option<Fault>, NoMemory>
    ensures { IfOk result (Tells AreStatement text.now) }
{
    first_fault(alloc, Language::Statements, text)
}

/// Where the text of a statement or a definition goes wrong first, as in a script; none where it is one of them.
pub fn script_fault(alloc: Global, text: &[u8]) -> Result<Option<Fault>, NoMemory>
    ensures { IfOk result (Tells AreEither text.now) }
{
    first_fault(alloc, Language::Either, text)
}
