//! A set of attributes, kept in the bits of a number.
ghost use Rattle.std.specs.Prelude.{◌≡◌, ◌<◌, ◌↔◌, IsTrue};
ghost use Rattle.std.specs.FinSet as set;

use std::marker::Model;

/// A set of numbers below 128, as the attributes of a schema: two machine words.
/// Two sets are equal where each is within the other.
#[derive(Clone, Copy)]
pub struct AttrSet {
    bits: u128,
}

impl Model for AttrSet {
    ghost use Rattle.std.specs.Prelude.{◌<◌, ◌^◌};
    ghost use Rattle.std.specs.Ordering.{nat_cmp};
    ghost use Rattle.std.specs.Coded.{coded_ℕ};
    ghost use Rattle.std.specs.FinSet as set;
    ghost use Rattle.su_base.specs.BitSet.{set_of_bits, bits_of_set, bits_of_set-set_of_bits};

    ghost Value = { set.FinSet nat_cmp };

    ghost coded = { set.code coded_ℕ };

    ghost view = { λ s. set_of_bits 128 s.bits };

    ghost invariant = { λ s. s.bits < 2 ^ 128 };

    ghost inverse = { λ s. record { bits = bits_of_set 128 s } };

    ghost inverse_ok = { λ a h i. record { bits = bits_of_set-set_of_bits 128 a.bits h i } };
}

#[tactic(auto, using(crate::proofs::BitSets::bit_sets))]
impl AttrSet {
    /// The set without members.
    pub fn empty() -> AttrSet
        ensures { result ≡ set.empty }
    {
        AttrSet { bits: 0 }
    }

    /// Whether the number is a member; false where it is past the type's limit.
    pub fn contains(self, a: u8) -> bool
        ensures { result ≡ set.contains self a }
    {
        a < 128 && (self.bits >> a) & 1 == 1
    }

    /// The set with the number as a member.
    pub fn insert(self, a: u8) -> AttrSet
        requires { a < 128 }
        ensures { result ≡ set.insert self a }
    {
        AttrSet {
            bits: self.bits | 1 << a,
        }
    }

    /// The members of either.
    pub fn union(self, other: AttrSet) -> AttrSet
        ensures { result ≡ set.union self other }
    {
        AttrSet {
            bits: self.bits | other.bits,
        }
    }

    /// The members of both.
    pub fn meet(self, other: AttrSet) -> AttrSet
        ensures { result ≡ set.intersection self other }
    {
        AttrSet {
            bits: self.bits & other.bits,
        }
    }

    /// The members that `other` lacks.
    pub fn minus(self, other: AttrSet) -> AttrSet
        ensures { result ≡ set.difference self other }
    {
        AttrSet {
            bits: self.bits & !other.bits,
        }
    }

    /// Whether each member is one of `other`.
    pub fn within(self, other: AttrSet) -> bool
        ensures { result ≡ set.is_subset self other }
    {
        self.minus(other).is_empty()
    }

    /// Whether there is no member.
    pub fn is_empty(self) -> bool
        ensures { IsTrue result ↔ (self ≡ set.empty) }
    {
        self.bits == 0
    }
}
