//! Theorems on windows: each is the contract of a function that does nothing.
ghost use Rattle.su_state.specs.DatabaseValue.{DatabaseValue};
ghost use Rattle.su_rel.specs.MoreThan.{AreMoreThan};
ghost use Rattle.su_window.specs.Members.{IsMember, HasFew};
ghost use Rattle.su_window.specs.Laws.{WindowsAreConstantRows, RepresentedRowsFit, ClashesFitNothing};

/// A database has not both at most 20,000 members and more than 20,000, so that a window is refused by
/// the limit exactly where it has more.
pub fn few_are_not_many()
    ensures { (db : DatabaseValue) → HasFew db → AreMoreThan 20000 (IsMember db) → ⊥ }
{}

/// Where no two constants meet, the window over some attributes is exactly what the chased padded rows
/// have of constants there: nothing else is in every universal relation that meets the dependencies and
/// includes the stored rows.
pub fn windows_are_constant_rows()
    ensures { WindowsAreConstantRows }
{}

/// Where no two constants meet in the chase of the padded rows, some universal relation meets the
/// dependencies and includes the stored rows.
pub fn represented_rows_fit()
    ensures { RepresentedRowsFit }
{}

/// Where two constants meet, none does.
pub fn clashes_fit_nothing()
    ensures { ClashesFitNothing }
{}
