//! A statement wants one file, and has one reply.
ghost use Rattle.su_once.specs.Replies.{OneWant, OneReply};

/// A statement wants one file, or none.
pub fn a_statement_wants_one_file()
    ensures { OneWant }
{}

/// A statement has one reply on databases that are alike, and leaves them alike.
pub fn a_statement_has_one_reply()
    ensures { OneReply }
{}
