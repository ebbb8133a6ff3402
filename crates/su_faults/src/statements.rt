//! What may come next within a statement without a query.
ghost use Rattle.std.specs.Prelude.{◌≡◌};
ghost use Rattle.su_faults.specs.inside.Choices.{statement_choices};

use crate::sorts::{Sort, Word};
use crate::spots::{Choice, Frame, InCondition, InStatement, Move, Spot};
use su_lex::Sign;

const OPEN: Sort = Sort::Sign(Sign::Open);

const COMMA: Sort = Sort::Sign(Sign::Comma);

const CLOSE: Sort = Sort::Sign(Sign::Close);

const WHERE: Sort = Sort::Word(Word::Where);

const FROM: Sort = Sort::Word(Word::From);

const TO_VALUES_OPEN: Move = Move::To(Spot::Statement(InStatement::ValuesOpen));

const TO_VALUE: Move = Move::To(Spot::Statement(InStatement::Value));

const TO_VALUE_NEXT: Move = Move::To(Spot::Statement(InStatement::ValueNext));

const TO_DONE: Move = Move::To(Spot::Statement(InStatement::End));

const TO_DELETE_HOW: Move = Move::To(Spot::Statement(InStatement::DeleteHow));

const COLUMNS_FACTOR: Move = Move::On(Frame::Columns, Spot::Condition(InCondition::Factor));

const TO_LOAD_FROM: Move = Move::To(Spot::Statement(InStatement::LoadFrom));

const TO_LOAD_FILE: Move = Move::To(Spot::Statement(InStatement::LoadFile));

const TO_NAME: Move = Move::To(Spot::Statement(InStatement::Name));

const TO_NAME_NEXT: Move = Move::To(Spot::Statement(InStatement::NameNext));

/// What may come next.
pub fn statement_choices(spot: InStatement) -> &'static [Choice]
    ensures { result.now ≡ statement_choices spot }
{
    match spot {
        InStatement::InsertName => &[(Sort::Name, TO_VALUES_OPEN)],
        InStatement::ValuesOpen => &[(OPEN, TO_VALUE)],
        InStatement::Value => &[(Sort::Number, TO_VALUE_NEXT), (Sort::Text, TO_VALUE_NEXT)],
        InStatement::ValueNext => &[(COMMA, TO_VALUE), (CLOSE, TO_DONE)],
        InStatement::DeleteName => &[(Sort::Name, TO_DELETE_HOW)],
        InStatement::DeleteHow => &[(OPEN, TO_VALUE), (WHERE, COLUMNS_FACTOR)],
        InStatement::LoadName => &[(Sort::Name, TO_LOAD_FROM)],
        InStatement::LoadFrom => &[(FROM, TO_LOAD_FILE)],
        InStatement::LoadFile => &[(Sort::Text, TO_DONE)],
        InStatement::PrintName => &[(Sort::Name, TO_DONE)],
        InStatement::NamesOpen => &[(OPEN, TO_NAME)],
        InStatement::Name => &[(Sort::Name, TO_NAME_NEXT)],
        InStatement::NameNext => &[(COMMA, TO_NAME), (CLOSE, TO_DONE)],
        InStatement::End => &[(Sort::End, TO_DONE)],
    }
}
