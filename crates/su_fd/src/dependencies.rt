//! One functional dependency.
use su_base::AttrSet;

/// Rows that agree on `left` agree on `right`. A schema's dependencies have two sides that aren't
/// empty; nothing here rests on that.
#[derive(Clone, Copy)]
pub struct Fd {
    pub left: AttrSet,
    pub right: AttrSet,
}
