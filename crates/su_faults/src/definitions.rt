//! What may come next within a definition.
ghost use Rattle.std.specs.Prelude.{◌≡◌};
ghost use Rattle.su_faults.specs.inside.Choices.{definition_choices};

use crate::sorts::{Sort, Word};
use crate::spots::{Choice, InDefinition, InStatement, Move, Spot};
use su_lex::Sign;

const INT: Sort = Sort::Word(Word::Int);

const TEXT: Sort = Sort::Word(Word::Text);

const OPEN: Sort = Sort::Sign(Sign::Open);

const COMMA: Sort = Sort::Sign(Sign::Comma);

const CLOSE: Sort = Sort::Sign(Sign::Close);

const FROM: Sort = Sort::Word(Word::From);

const ARROW: Sort = Sort::Sign(Sign::Arrow);

const TO_ATTRIBUTE_KIND: Move = Move::To(Spot::Definition(InDefinition::AttributeKind));

const TO_DONE: Move = Move::To(Spot::Statement(InStatement::End));

const TO_RELATION_OPEN: Move = Move::To(Spot::Definition(InDefinition::RelationOpen));

const TO_COLUMN: Move = Move::To(Spot::Definition(InDefinition::Column));

const TO_COLUMN_KIND: Move = Move::To(Spot::Definition(InDefinition::ColumnKind));

const TO_COLUMN_NEXT: Move = Move::To(Spot::Definition(InDefinition::ColumnNext));

const TO_OBJECT_OPEN: Move = Move::To(Spot::Definition(InDefinition::ObjectOpen));

const TO_ATTRIBUTE: Move = Move::To(Spot::Definition(InDefinition::Attribute));

const UP_TO_ATTRIBUTE_NEXT: Move = Move::Up(Spot::Definition(InDefinition::AttributeNext));

const TO_OBJECT_FROM: Move = Move::To(Spot::Definition(InDefinition::ObjectFrom));

const TO_OBJECT_RELATION: Move = Move::To(Spot::Definition(InDefinition::ObjectRelation));

const TO_TAKEN_OPEN: Move = Move::To(Spot::Definition(InDefinition::TakenOpen));

const TO_TAKEN: Move = Move::To(Spot::Definition(InDefinition::Taken));

const DOWN_TO_TAKEN_NEXT: Move = Move::Down(Spot::Definition(InDefinition::TakenNext));

const TO_LEFT_NEXT: Move = Move::To(Spot::Definition(InDefinition::LeftNext));

const TO_LEFT: Move = Move::To(Spot::Definition(InDefinition::Left));

const TO_RIGHT: Move = Move::To(Spot::Definition(InDefinition::Right));

const TO_RIGHT_NEXT: Move = Move::To(Spot::Definition(InDefinition::RightNext));

/// What may come next, where each attribute of an object has its column, or not.
pub fn definition_choices(spot: InDefinition, flat: bool) -> &'static [Choice]
    ensures { result.now ≡ definition_choices spot flat }
{
    match spot {
        InDefinition::AttributeName => &[(Sort::Name, TO_ATTRIBUTE_KIND)],
        InDefinition::AttributeKind => &[(INT, TO_DONE), (TEXT, TO_DONE)],
        InDefinition::RelationName => &[(Sort::Name, TO_RELATION_OPEN)],
        InDefinition::RelationOpen => &[(OPEN, TO_COLUMN)],
        InDefinition::Column => &[(Sort::Name, TO_COLUMN_KIND)],
        InDefinition::ColumnKind => &[(INT, TO_COLUMN_NEXT), (TEXT, TO_COLUMN_NEXT)],
        InDefinition::ColumnNext => &[(COMMA, TO_COLUMN), (CLOSE, TO_DONE)],
        InDefinition::ObjectName => &[(Sort::Name, TO_OBJECT_OPEN)],
        InDefinition::ObjectOpen => &[(OPEN, TO_ATTRIBUTE)],
        InDefinition::Attribute => &[(Sort::Name, UP_TO_ATTRIBUTE_NEXT)],
        InDefinition::AttributeNext => &[(COMMA, TO_ATTRIBUTE), (CLOSE, TO_OBJECT_FROM)],
        InDefinition::ObjectFrom => &[(FROM, TO_OBJECT_RELATION)],
        InDefinition::ObjectRelation => &[(Sort::Name, TO_TAKEN_OPEN)],
        InDefinition::TakenOpen => &[(OPEN, TO_TAKEN)],
        InDefinition::Taken => &[(Sort::Name, DOWN_TO_TAKEN_NEXT)],
        InDefinition::TakenNext if flat => &[(CLOSE, TO_DONE)],
        InDefinition::TakenNext => &[(COMMA, TO_TAKEN)],
        InDefinition::Left => &[(Sort::Name, TO_LEFT_NEXT)],
        InDefinition::LeftNext => &[(COMMA, TO_LEFT), (ARROW, TO_RIGHT)],
        InDefinition::Right => &[(Sort::Name, TO_RIGHT_NEXT)],
        InDefinition::RightNext => &[(COMMA, TO_RIGHT), (Sort::End, TO_DONE)],
    }
}
