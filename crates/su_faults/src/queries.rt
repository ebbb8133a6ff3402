//! What may come next within a query, or beside one.
ghost use Rattle.std.specs.Prelude.{◌≡◌};
ghost use Rattle.su_faults.specs.inside.Choices.{query_choices};
ghost use Rattle.su_faults.specs.declared.spots.InQuery.TheVariants.{Where as BeforeWhere};

use crate::sorts::{Sort, Word};
use crate::spots::{Choice, Frame, InCondition, InQuery, InStatement, Move, Spot};
use su_lex::Sign;

const WHERE: Sort = Sort::Word(Word::Where);

const CLOSE: Sort = Sort::Sign(Sign::Close);

const WITH: Sort = Sort::Word(Word::With);

const FROM: Sort = Sort::Word(Word::From);

const RETRIEVE: Sort = Sort::Word(Word::Retrieve);

const OPEN: Sort = Sort::Sign(Sign::Open);

const DOT: Sort = Sort::Sign(Sign::Dot);

const COMMA: Sort = Sort::Sign(Sign::Comma);

const TO_FACTOR: Move = Move::To(Spot::Condition(InCondition::Factor));

const TO_DONE: Move = Move::To(Spot::Statement(InStatement::End));

const TO_COMPARE_WITH: Move = Move::To(Spot::Query(InQuery::CompareWith));

const TO_START: Move = Move::To(Spot::Query(InQuery::Start));

const TO_OUTPUTS_OPEN: Move = Move::To(Spot::Query(InQuery::OutputsOpen));

const FIRST_START: Move = Move::On(Frame::First, Spot::Query(InQuery::Start));

const TO_OUTPUT: Move = Move::To(Spot::Query(InQuery::Output));

const TO_OUTPUT_DOT: Move = Move::To(Spot::Query(InQuery::OutputDot));

const TO_OUTPUT_ATTRIBUTE: Move = Move::To(Spot::Query(InQuery::OutputAttribute));

const TO_WHERE: Move = Move::To(Spot::Query(InQuery::Where));

const TO_OUTPUT_NEXT: Move = Move::To(Spot::Query(InQuery::OutputNext));

const TO_SECOND_OPEN: Move = Move::To(Spot::Query(InQuery::SecondOpen));

const SECOND_START: Move = Move::On(Frame::Second, Spot::Query(InQuery::Start));

/// A condition, or what follows a query in this frame.
fn wheres(frame: Frame) -> &'static [Choice]
    ensures { result.now ≡ query_choices BeforeWhere frame }
{
    match frame {
        Frame::Alone => &[(WHERE, TO_FACTOR), (Sort::End, TO_DONE)],
        Frame::Columns => &[(WHERE, TO_FACTOR), (Sort::End, TO_DONE)],
        Frame::First => &[(WHERE, TO_FACTOR), (CLOSE, TO_COMPARE_WITH)],
        Frame::Second => &[(WHERE, TO_FACTOR), (CLOSE, TO_DONE)],
    }
}

/// What may come next within this frame.
pub fn query_choices(spot: InQuery, frame: Frame) -> &'static [Choice]
    ensures { result.now ≡ query_choices spot frame }
{
    match spot {
        InQuery::Explained => &[
            (WITH, TO_START),
            (FROM, TO_START),
            (RETRIEVE, TO_OUTPUTS_OPEN),
        ],
        InQuery::CompareOpen => &[(OPEN, FIRST_START)],
        InQuery::Start => &[(RETRIEVE, TO_OUTPUTS_OPEN)],
        InQuery::OutputsOpen => &[(OPEN, TO_OUTPUT)],
        InQuery::Output => &[(Sort::Name, TO_OUTPUT_DOT)],
        InQuery::OutputDot => &[
            (DOT, TO_OUTPUT_ATTRIBUTE),
            (COMMA, TO_OUTPUT),
            (CLOSE, TO_WHERE),
        ],
        InQuery::OutputAttribute => &[(Sort::Name, TO_OUTPUT_NEXT)],
        InQuery::OutputNext => &[(COMMA, TO_OUTPUT), (CLOSE, TO_WHERE)],
        InQuery::Where => wheres(frame),
        InQuery::CompareWith => &[(WITH, TO_SECOND_OPEN)],
        InQuery::SecondOpen => &[(OPEN, SECOND_START)],
    }
}
