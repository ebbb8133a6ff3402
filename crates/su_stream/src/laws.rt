//! Laws about the pieces of an input. The functions do nothing: their contracts are the laws.
ghost use Rattle.su_stream.specs.Laws.{OneWayOfCutting, EachIsCut, AreStatementsOfFiles, WhatHasEndedStays, TextsStay, GivenComeFirst, SameHoweverItComes};

/// An input is cut into pieces in one way.
pub fn an_input_is_cut_in_one_way()
    ensures { OneWayOfCutting }
{}

/// Each input is cut into pieces.
pub fn each_input_is_cut()
    ensures { EachIsCut }
{}

/// The pieces that are statements are those into which su_lex cuts a file.
pub fn pieces_are_the_statements_of_files()
    ensures { AreStatementsOfFiles }
{}

/// What has ended stays ended as more comes.
pub fn what_has_ended_stays_ended()
    ensures { WhatHasEndedStays }
{}

/// The texts of the statements that have ended stay as more comes.
pub fn texts_stay_as_more_comes()
    ensures { TextsStay }
{}

/// The pieces that a stream has given are the first of those that have ended, also as more comes.
pub fn what_is_given_comes_first()
    ensures { GivenComeFirst }
{}

/// However an input is cut into what is pushed, the same pieces are given.
pub fn the_pieces_are_the_same_however_the_input_comes()
    ensures { SameHoweverItComes }
{}
