//! A containment mapping that is known to be one.
ghost use Rattle.std.specs.Prelude.{◌≡◌};
ghost use Rattle.su_map.specs.Lists.{IsCertified};

use std::marker::Model;
use su_base::List;
use su_tableau::Tableau;

/// A containment mapping from the masked rows of a tableau into those of another, by its row list:
/// for each masked row, in ascending order, the row to which it goes.
#[derive(Debug, Drop)]
pub struct Mapping {
    from: Tableau,
    from_mask: u64,
    to: Tableau,
    to_mask: u64,
    list: List<u8>,
}

impl Model for Mapping {
    ghost use Rattle.su_map.specs.Lists.{Certified, IsCertified};

    ghost Value = { Certified };

    ghost view = { λ m. record { from = m.from; from_mask = m.from_mask; to = m.to; to_mask = m.to_mask; list = m.list } };

    ghost invariant = { λ m. IsCertified (record { from = m.from; from_mask = m.from_mask; to = m.to; to_mask = m.to_mask; list = m.list }) };
}

impl Mapping {
    pub(crate) fn new(
        from: Tableau,
        from_mask: u64,
        to: Tableau,
        to_mask: u64,
        list: List<u8>,
    ) -> Mapping
        requires { IsCertified (record { from = from; from_mask = from_mask; to = to; to_mask = to_mask; list = list }) }
        ensures { result ≡ record { from = from; from_mask = from_mask; to = to; to_mask = to_mask; list = list } }
    {
        Mapping {
            from,
            from_mask,
            to,
            to_mask,
            list,
        }
    }

    /// For proofs: it is a mapping. It does nothing.
    pub fn keeps_its_rules(&self)
        ensures { IsCertified self.now }
    {
        let _ = &self.list;
    }

    /// For each masked row, in ascending order, the row to which it goes.
    pub fn list(&self) -> &[u8]
        ensures { result.now ≡ self.now.list }
    {
        self.list.as_slice()
    }
}
