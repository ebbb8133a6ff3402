//! What is shown of a query and of a closure is one text.
ghost use Rattle.su_once.specs.Texts.{OneClosureReply, OneExplanation};

/// A closure has one reply.
pub fn a_closure_has_one_reply()
    ensures { OneClosureReply }
{}

/// A prepared query has one explanation.
pub fn a_query_has_one_explanation()
    ensures { OneExplanation }
{}
