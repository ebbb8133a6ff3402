//! What the replies to the statements of a text are, one after another.
//!
//! Two definitions that the programs which answer statements share: what a statement is handed of the
//! file that it wants, and the replies to the texts of a script, each on the database that the ones
//! before it left. No code stands here.
#![tactic(auto)]
