//! What may come next, and where it leads.
ghost use Rattle.std.specs.Prelude.{◌≡◌, ◌+◌, ◌<◌, ◌^◌};
ghost use Rattle.su_faults.specs.inside.Machine.{choices_of, moved, IsChosen};

use crate::conditions::condition_choices;
use crate::definitions::definition_choices;
use crate::queries::query_choices;
use crate::sorts::Sort;
use crate::spots::{Choice, Move, Spot, State};
use crate::starts::start_choices;
use crate::statements::statement_choices;

/// What may come next.
pub fn choices(state: &State) -> &'static [Choice]
    ensures { result.now ≡ choices_of state.now }
{
    let flat = state.level == 0;
    match state.spot {
        Spot::Start(language) => start_choices(language),
        Spot::Definition(spot) => definition_choices(spot, flat),
        Spot::Statement(spot) => statement_choices(spot),
        Spot::Query(spot) => query_choices(spot, state.frame),
        Spot::Condition(spot) => condition_choices(spot, state.frame, flat),
    }
}

/// Where this kind of token leads, if it may come next.
pub fn chosen(choices: &[Choice], sort: Sort) -> Option<Move>
    ensures { IsChosen choices.now sort result }
{
    match choices {
        [] => None,
        [first, others @ ..] => {
            if first.0 == sort {
                return Some(first.1);
            }
            chosen(others, sort)
        }
    }
}

/// The state that a move leads to.
pub fn moved(state: &State, step: Move) -> State
    requires { state.now.level + 1 < 2 ^ 64 }
    ensures { result ≡ moved step state.now }
{
    match step {
        Move::To(spot) => State {
            spot,
            frame: state.frame,
            level: state.level,
        },
        Move::Up(spot) => State {
            spot,
            frame: state.frame,
            level: state.level + 1,
        },
        Move::Down(spot) => State {
            spot,
            frame: state.frame,
            level: state.level.saturating_sub(1),
        },
        Move::On(frame, spot) => State {
            spot,
            frame,
            level: state.level,
        },
    }
}
