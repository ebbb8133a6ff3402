//! Databases that are alike stay so under equal changes, which have equal answers.
ghost use Rattle.su_once.specs.States.{OneOrder, OneInsert, OneDelete, OneDeleteWhere, OneLoad, OneDefinition};

/// The rows of a relation have one order.
pub fn rows_have_one_order()
    ensures { OneOrder }
{}

/// An insert has one answer.
pub fn an_insert_has_one_answer()
    ensures { OneInsert }
{}

/// A delete of a row has one answer.
pub fn a_delete_has_one_answer()
    ensures { OneDelete }
{}

/// A delete by a condition has one count.
pub fn a_delete_by_a_condition_has_one_count()
    ensures { OneDeleteWhere }
{}

/// A load has one answer.
pub fn a_load_has_one_answer()
    ensures { OneLoad }
{}

/// A definition has one answer.
pub fn a_definition_has_one_answer()
    ensures { OneDefinition }
{}
