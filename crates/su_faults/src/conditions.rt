//! What may come next within a condition.
ghost use Rattle.std.specs.Prelude.{◌≡◌, false, true};
ghost use Rattle.su_faults.specs.inside.Choices.{condition_choices, nexts, operators};
ghost use Rattle.su_faults.specs.declared.spots.InCondition.TheVariants.{LeftDot as BeforeLeftDot, RightDot as BeforeRightDot};

use crate::sorts::{Sort, Word};
use crate::spots::{Choice, Frame, InCondition, InQuery, InStatement, Move, Spot};
use su_lex::Sign;

const EQUAL: Sort = Sort::Sign(Sign::Equal);

const NOT_EQUAL: Sort = Sort::Sign(Sign::NotEqual);

const LESS: Sort = Sort::Sign(Sign::Less);

const LESS_EQUAL: Sort = Sort::Sign(Sign::LessEqual);

const GREATER: Sort = Sort::Sign(Sign::Greater);

const GREATER_EQUAL: Sort = Sort::Sign(Sign::GreaterEqual);

const DOT: Sort = Sort::Sign(Sign::Dot);

const AND: Sort = Sort::Word(Word::And);

const OR: Sort = Sort::Word(Word::Or);

const CLOSE: Sort = Sort::Sign(Sign::Close);

const NOT: Sort = Sort::Word(Word::Not);

const OPEN: Sort = Sort::Sign(Sign::Open);

const TO_RIGHT: Move = Move::To(Spot::Condition(InCondition::Right));

const TO_LEFT_ATTRIBUTE: Move = Move::To(Spot::Condition(InCondition::LeftAttribute));

const TO_FACTOR: Move = Move::To(Spot::Condition(InCondition::Factor));

const TO_DONE: Move = Move::To(Spot::Statement(InStatement::End));

const TO_COMPARE_WITH: Move = Move::To(Spot::Query(InQuery::CompareWith));

const DOWN_TO_NEXT: Move = Move::Down(Spot::Condition(InCondition::Next));

const TO_RIGHT_ATTRIBUTE: Move = Move::To(Spot::Condition(InCondition::RightAttribute));

const TO_PRIMARY: Move = Move::To(Spot::Condition(InCondition::Primary));

const UP_TO_FACTOR: Move = Move::Up(Spot::Condition(InCondition::Factor));

const TO_LEFT_DOT: Move = Move::To(Spot::Condition(InCondition::LeftDot));

const TO_OPERATOR: Move = Move::To(Spot::Condition(InCondition::Operator));

const TO_RIGHT_DOT: Move = Move::To(Spot::Condition(InCondition::RightDot));

const TO_NEXT: Move = Move::To(Spot::Condition(InCondition::Next));

/// An operator.
fn operators() -> &'static [Choice]
    ensures { result.now ≡ operators }
{
    &[
        (EQUAL, TO_RIGHT),
        (NOT_EQUAL, TO_RIGHT),
        (LESS, TO_RIGHT),
        (LESS_EQUAL, TO_RIGHT),
        (GREATER, TO_RIGHT),
        (GREATER_EQUAL, TO_RIGHT),
    ]
}

/// Behind the first name of a comparison.
fn left_dots(frame: Frame) -> &'static [Choice]
    ensures { result.now ≡ condition_choices BeforeLeftDot frame false }
{
    if frame == Frame::Columns {
        return operators();
    }
    &[
        (DOT, TO_LEFT_ATTRIBUTE),
        (EQUAL, TO_RIGHT),
        (NOT_EQUAL, TO_RIGHT),
        (LESS, TO_RIGHT),
        (LESS_EQUAL, TO_RIGHT),
        (GREATER, TO_RIGHT),
        (GREATER_EQUAL, TO_RIGHT),
    ]
}

/// Behind a comparison or parentheses that stand in no others.
fn last_nexts(frame: Frame) -> &'static [Choice]
    ensures { result.now ≡ nexts frame true }
{
    match frame {
        Frame::Alone => &[(AND, TO_FACTOR), (OR, TO_FACTOR), (Sort::End, TO_DONE)],
        Frame::Columns => &[(AND, TO_FACTOR), (OR, TO_FACTOR), (Sort::End, TO_DONE)],
        Frame::First => &[(AND, TO_FACTOR), (OR, TO_FACTOR), (CLOSE, TO_COMPARE_WITH)],
        Frame::Second => &[(AND, TO_FACTOR), (OR, TO_FACTOR), (CLOSE, TO_DONE)],
    }
}

/// Behind a comparison or parentheses.
fn nexts(frame: Frame, flat: bool) -> &'static [Choice]
    ensures { result.now ≡ nexts frame flat }
{
    if flat {
        return last_nexts(frame);
    }
    &[(AND, TO_FACTOR), (OR, TO_FACTOR), (CLOSE, DOWN_TO_NEXT)]
}

/// Behind the last name of a comparison that stands in no parentheses.
fn last_right_dots(frame: Frame) -> &'static [Choice]
    ensures { result.now ≡ condition_choices BeforeRightDot frame true }
{
    match frame {
        Frame::Alone => &[
            (DOT, TO_RIGHT_ATTRIBUTE),
            (AND, TO_FACTOR),
            (OR, TO_FACTOR),
            (Sort::End, TO_DONE),
        ],
        Frame::Columns => &[(AND, TO_FACTOR), (OR, TO_FACTOR), (Sort::End, TO_DONE)],
        Frame::First => &[
            (DOT, TO_RIGHT_ATTRIBUTE),
            (AND, TO_FACTOR),
            (OR, TO_FACTOR),
            (CLOSE, TO_COMPARE_WITH),
        ],
        Frame::Second => &[
            (DOT, TO_RIGHT_ATTRIBUTE),
            (AND, TO_FACTOR),
            (OR, TO_FACTOR),
            (CLOSE, TO_DONE),
        ],
    }
}

/// Behind the last name of a comparison.
fn right_dots(frame: Frame, flat: bool) -> &'static [Choice]
    ensures { result.now ≡ condition_choices BeforeRightDot frame flat }
{
    if flat {
        return last_right_dots(frame);
    }
    if frame == Frame::Columns {
        return nexts(frame, false);
    }
    &[
        (DOT, TO_RIGHT_ATTRIBUTE),
        (AND, TO_FACTOR),
        (OR, TO_FACTOR),
        (CLOSE, DOWN_TO_NEXT),
    ]
}

/// What may come next within this frame, where no parenthesis is open or some are.
pub fn condition_choices(spot: InCondition, frame: Frame, flat: bool) -> &'static [Choice]
    ensures { result.now ≡ condition_choices spot frame flat }
{
    match spot {
        InCondition::Factor => &[
            (NOT, TO_PRIMARY),
            (OPEN, UP_TO_FACTOR),
            (Sort::Name, TO_LEFT_DOT),
            (Sort::Number, TO_OPERATOR),
            (Sort::Text, TO_OPERATOR),
        ],
        InCondition::Primary => &[
            (OPEN, UP_TO_FACTOR),
            (Sort::Name, TO_LEFT_DOT),
            (Sort::Number, TO_OPERATOR),
            (Sort::Text, TO_OPERATOR),
        ],
        InCondition::LeftDot => left_dots(frame),
        InCondition::LeftAttribute => &[(Sort::Name, TO_OPERATOR)],
        InCondition::Operator => operators(),
        InCondition::Right => &[
            (Sort::Name, TO_RIGHT_DOT),
            (Sort::Number, TO_NEXT),
            (Sort::Text, TO_NEXT),
        ],
        InCondition::RightDot => right_dots(frame, flat),
        InCondition::RightAttribute => &[(Sort::Name, TO_NEXT)],
        InCondition::Next => nexts(frame, flat),
    }
}
