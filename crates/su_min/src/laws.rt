//! Theorems on least tableaux and on unions: each is the contract of a function that does nothing.
ghost use Rattle.su_min.specs.Laws.{KeptRowsAreLeast, KeptTermsAreNeeded, TermsAreKeptOrCovered};

/// The kept rows of a tableau are least: they have its answers, and nothing with fewer rows does.
pub fn kept_rows_are_least()
    ensures { KeptRowsAreLeast }
{}

/// No kept term of a union can be spared.
pub fn kept_terms_are_needed()
    ensures { KeptTermsAreNeeded }
{}

/// Each term of a union is kept, or covered by a kept one.
pub fn terms_are_kept_or_covered()
    ensures { TermsAreKeptOrCovered }
{}
