//! What may come first.
ghost use Rattle.std.specs.Prelude.{◌≡◌};
ghost use Rattle.su_faults.specs.inside.Choices.{start_choices};

use crate::sorts::{Sort, Word};
use crate::spots::{Choice, InDefinition, InQuery, InStatement, Language, Move, Spot};

const INSERT: Sort = Sort::Word(Word::Insert);

const DELETE: Sort = Sort::Word(Word::Delete);

const LOAD: Sort = Sort::Word(Word::Load);

const PRINT: Sort = Sort::Word(Word::Print);

const SCHEMA: Sort = Sort::Word(Word::Schema);

const CLOSURE: Sort = Sort::Word(Word::Closure);

const RETRIEVE: Sort = Sort::Word(Word::Retrieve);

const EXPLAIN: Sort = Sort::Word(Word::Explain);

const COMPARE: Sort = Sort::Word(Word::Compare);

const WINDOW: Sort = Sort::Word(Word::Window);

const ATTRIBUTE: Sort = Sort::Word(Word::Attribute);

const RELATION: Sort = Sort::Word(Word::Relation);

const OBJECT: Sort = Sort::Word(Word::Object);

const FD: Sort = Sort::Word(Word::Fd);

const MAXIMAL: Sort = Sort::Word(Word::Maximal);

const TO_INSERT_NAME: Move = Move::To(Spot::Statement(InStatement::InsertName));

const TO_DELETE_NAME: Move = Move::To(Spot::Statement(InStatement::DeleteName));

const TO_LOAD_NAME: Move = Move::To(Spot::Statement(InStatement::LoadName));

const TO_PRINT_NAME: Move = Move::To(Spot::Statement(InStatement::PrintName));

const TO_DONE: Move = Move::To(Spot::Statement(InStatement::End));

const TO_NAMES_OPEN: Move = Move::To(Spot::Statement(InStatement::NamesOpen));

const TO_OUTPUTS_OPEN: Move = Move::To(Spot::Query(InQuery::OutputsOpen));

const TO_EXPLAINED: Move = Move::To(Spot::Query(InQuery::Explained));

const TO_COMPARE_OPEN: Move = Move::To(Spot::Query(InQuery::CompareOpen));

const TO_ATTRIBUTE_NAME: Move = Move::To(Spot::Definition(InDefinition::AttributeName));

const TO_RELATION_NAME: Move = Move::To(Spot::Definition(InDefinition::RelationName));

const TO_OBJECT_NAME: Move = Move::To(Spot::Definition(InDefinition::ObjectName));

const TO_LEFT: Move = Move::To(Spot::Definition(InDefinition::Left));

/// What may come first: the first words of the forms.
pub fn start_choices(language: Language) -> &'static [Choice]
    ensures { result.now ≡ start_choices language }
{
    match language {
        Language::Statements => &[
            (INSERT, TO_INSERT_NAME),
            (DELETE, TO_DELETE_NAME),
            (LOAD, TO_LOAD_NAME),
            (PRINT, TO_PRINT_NAME),
            (SCHEMA, TO_DONE),
            (CLOSURE, TO_NAMES_OPEN),
            (RETRIEVE, TO_OUTPUTS_OPEN),
            (EXPLAIN, TO_EXPLAINED),
            (COMPARE, TO_COMPARE_OPEN),
            (WINDOW, TO_NAMES_OPEN),
        ],
        Language::Definitions => &[
            (ATTRIBUTE, TO_ATTRIBUTE_NAME),
            (RELATION, TO_RELATION_NAME),
            (OBJECT, TO_OBJECT_NAME),
            (FD, TO_LEFT),
            (MAXIMAL, TO_NAMES_OPEN),
        ],
        Language::Either => &[
            (ATTRIBUTE, TO_ATTRIBUTE_NAME),
            (RELATION, TO_RELATION_NAME),
            (OBJECT, TO_OBJECT_NAME),
            (FD, TO_LEFT),
            (MAXIMAL, TO_NAMES_OPEN),
            (INSERT, TO_INSERT_NAME),
            (DELETE, TO_DELETE_NAME),
            (LOAD, TO_LOAD_NAME),
            (PRINT, TO_PRINT_NAME),
            (SCHEMA, TO_DONE),
            (CLOSURE, TO_NAMES_OPEN),
            (RETRIEVE, TO_OUTPUTS_OPEN),
            (EXPLAIN, TO_EXPLAINED),
            (COMPARE, TO_COMPARE_OPEN),
            (WINDOW, TO_NAMES_OPEN),
        ],
    }
}
