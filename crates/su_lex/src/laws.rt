//! Laws about pieces and tokens. The functions do nothing: their contracts are the laws.
ghost use Rattle.su_lex.specs.Laws.{OneListOfPieces, OneListOfTokens, OneListOfSymbols, SpacedIsRead};

/// A file is cut into statements in one way.
pub fn a_file_has_one_list_of_pieces()
    ensures { OneListOfPieces }
{}

/// A text is one list of tokens, or none.
pub fn a_text_has_one_list_of_tokens()
    ensures { OneListOfTokens }
{}

/// A text is made of one list of symbols, or of none.
pub fn a_text_has_one_list_of_symbols()
    ensures { OneListOfSymbols }
{}

/// What is written with the spaces of shown statements is read as what was written.
pub fn spaced_symbols_are_read_again()
    ensures { SpacedIsRead }
{}
