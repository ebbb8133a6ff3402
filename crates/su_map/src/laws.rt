//! Theorems on mappings and rooms: each is the contract of a function that does nothing.
ghost use Rattle.std.specs.Prelude.{ℕ, List};
ghost use Rattle.su_tableau.specs.Tableaux.{Tab};
ghost use Rattle.su_tableau.specs.Parts.{part};
ghost use Rattle.su_tableau.specs.Mapping.{Maps};
ghost use Rattle.su_map.specs.Laws.{MappingsAreContainment, PreparedForFewer};
ghost use Rattle.su_map.specs.Lists.{IsMapping};

/// A mapping after a mapping is a mapping.
pub fn mappings_compose()
    ensures { (r : Tab) (s : Tab) (t : Tab) → Maps r s → Maps s t → Maps r t }
{}

/// A row list is a mapping of the parts, and each mapping of the parts has a row list.
pub fn row_lists_are_mappings()
    ensures to { (s : Tab) (t : Tab) (m : ℕ) (k : ℕ) (list : List ℕ) → IsMapping s m t k list → Maps (part s m) (part t k) }
    ensures from { (s : Tab) (t : Tab) (m : ℕ) (k : ℕ) → Maps (part s m) (part t k) → (list : List ℕ) × IsMapping s m t k list }
{}

/// Mappings are containment: for valid tableaux, well typed for one list of kinds, some list is a
/// mapping from all rows of the one into all rows of the other exactly where over every universal
/// relation of these kinds each answer of the other is one of the one. (Chandra and Merlin.)
pub fn mappings_are_containment()
    ensures { MappingsAreContainment }
{}

/// A room that is prepared for rows of two tableaux is prepared for fewer of them.
pub fn prepared_for_fewer()
    ensures { PreparedForFewer }
{}
