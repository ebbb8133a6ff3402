//! Laws about definitions. The functions do nothing: their contracts are the laws.
ghost use Rattle.su_ddl.specs.Laws.{OneDefinition};

/// A text is one definition, or none.
pub fn a_text_is_one_definition()
    ensures { OneDefinition }
{}
