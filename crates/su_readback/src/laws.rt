//! What is written is read back: each law is the contract of a function that does nothing.
ghost use Rattle.su_readback.specs.ExplanationsRead.{ExplanationsAreRead};
ghost use Rattle.su_readback.specs.PreparedRead.{PreparedAreRead};
ghost use Rattle.su_readback.specs.SchemasRead.{OneListOfLines, SchemasAreRead};
ghost use Rattle.su_readback.specs.Words.{TextsAreCut};

/// A text of lines of words, with blanks between the words and a line feed behind each line, is cut into
/// these lines and words, where no word holds a blank or a line feed outside quotes, or an odd quote.
pub fn texts_are_cut()
    ensures { TextsAreCut }
{}

/// A text is read as at most one list of lines.
pub fn one_list_of_lines()
    ensures { OneListOfLines }
{}

/// The reply to `schema` is read as the definitions and the maximal objects that are shown, line by line
/// and word by word, where there are at most 1,000 maximal objects.
pub fn schemas_are_read()
    ensures { SchemasAreRead }
{}

/// The explanation of a query is read as the query, its variables and its terms with what is kept of them,
/// line by line and word by word, where there are fewer than 1,000 of what is numbered.
pub fn explanations_are_read()
    ensures { ExplanationsAreRead }
{}

/// So is the explanation of every query that is accepted, over at most 128 maximal objects.
pub fn prepared_queries_are_read()
    ensures { PreparedAreRead }
{}
