//! A set of objects, kept in the bits of a number.
ghost use Rattle.std.specs.Prelude.{◌≡◌, ◌<◌, ◌↔◌, IsTrue};
ghost use Rattle.std.specs.FinSet as set;

use std::marker::Model;

/// A set of numbers below 64, as the objects of a schema: one machine word.
/// Two sets are equal where each is within the other.
#[derive(Clone, Copy)]
pub struct ObjSet {
    bits: u64,
}

impl Model for ObjSet {
    ghost use Rattle.std.specs.Prelude.{◌<◌, ◌^◌};
    ghost use Rattle.std.specs.Ordering.{nat_cmp};
    ghost use Rattle.std.specs.Coded.{coded_ℕ};
    ghost use Rattle.std.specs.FinSet as set;
    ghost use Rattle.su_base.specs.BitSet.{set_of_bits, bits_of_set, bits_of_set-set_of_bits};

    ghost Value = { set.FinSet nat_cmp };

    ghost coded = { set.code coded_ℕ };

    ghost view = { λ s. set_of_bits 64 s.bits };

    ghost invariant = { λ s. s.bits < 2 ^ 64 };

    ghost inverse = { λ s. record { bits = bits_of_set 64 s } };

    ghost inverse_ok = { λ a h i. record { bits = bits_of_set-set_of_bits 64 a.bits h i } };
}

#[tactic(auto, using(crate::proofs::BitSets::bit_sets))]
impl ObjSet {
    /// The set without members.
    pub fn empty() -> ObjSet
        ensures { result ≡ set.empty }
    {
        ObjSet { bits: 0 }
    }

    /// Whether the number is a member; false where it is past the type's limit.
    pub fn contains(self, o: u8) -> bool
        ensures { result ≡ set.contains self o }
    {
        o < 64 && (self.bits >> o) & 1 == 1
    }

    /// The set with the number as a member.
    pub fn insert(self, o: u8) -> ObjSet
        requires { o < 64 }
        ensures { result ≡ set.insert self o }
    {
        ObjSet {
            bits: self.bits | 1 << o,
        }
    }

    /// The members of either.
    pub fn union(self, other: ObjSet) -> ObjSet
        ensures { result ≡ set.union self other }
    {
        ObjSet {
            bits: self.bits | other.bits,
        }
    }

    /// The members of both.
    pub fn meet(self, other: ObjSet) -> ObjSet
        ensures { result ≡ set.intersection self other }
    {
        ObjSet {
            bits: self.bits & other.bits,
        }
    }

    /// The members that `other` lacks.
    pub fn minus(self, other: ObjSet) -> ObjSet
        ensures { result ≡ set.difference self other }
    {
        ObjSet {
            bits: self.bits & !other.bits,
        }
    }

    /// Whether each member is one of `other`.
    pub fn within(self, other: ObjSet) -> bool
        ensures { result ≡ set.is_subset self other }
    {
        self.minus(other).is_empty()
    }

    /// Whether there is no member.
    pub fn is_empty(self) -> bool
        ensures { IsTrue result ↔ (self ≡ set.empty) }
    {
        self.bits == 0
    }
}
