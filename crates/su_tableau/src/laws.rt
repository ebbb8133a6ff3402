//! Theorems on tableaux: each is the contract of a function that does nothing.
ghost use Rattle.std.specs.Prelude.{ℕ};
ghost use Rattle.su_base.specs.declared.values.Kind.{Kind};
ghost use Rattle.su_tableau.specs.Tableaux.{Tab};
ghost use Rattle.su_tableau.specs.Valuations.{Ext};
ghost use Rattle.su_tableau.specs.Kinds.{Kinds, IsUniverse, IsTyped};
ghost use Rattle.su_tableau.specs.FrozenTableaux.{frozen_head, frozen_rows};
ghost use Rattle.su_tableau.specs.Laws.{FrozenAnswersAreMappings, EssentialColumnsSuffice};
ghost use Rattle.su_tableau.specs.Bytes.{BytesSuffice, LeastOverBytes};

/// A tableau is frozen by reading its variables as new values: its rows are then a universal
/// relation of its kinds, over which the frozen head is an answer; and where another tableau has
/// that answer too, it maps to the frozen one. (The canonical database of Chandra and Merlin.)
pub fn freezing()
    ensures typed { (kinds : Kinds) (t : Tab) (typed : IsTyped kinds t) (n : ℕ) → IsUniverse kinds (frozen_rows typed.var_kind n t) }
    ensures answer { (t : Tab) (var_kind : ℕ → Kind) (n : ℕ) → Ext t (frozen_rows var_kind n t) (frozen_head var_kind n t) }
    ensures thawed { FrozenAnswersAreMappings }
{}

/// Cells that are not essential tell nothing: rows that agree at their essential columns with rows
/// of a relation give the answers over it.
pub fn essential_columns_suffice()
    ensures { EssentialColumnsSuffice }
{}

/// Texts of bytes are enough: a tableau whose rows have constants of bytes, and which is within
/// another over every universal relation of bytes, is so over every one; so a least tableau is least
/// in this sense too. (A tableau is frozen to bytes.)
pub fn bytes_suffice()
    ensures within { BytesSuffice }
    ensures least { LeastOverBytes }
{}
