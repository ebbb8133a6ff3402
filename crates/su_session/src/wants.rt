//! What a statement wants.
use su_base::Str;

/// The file that a statement wants: that of a load of a known relation.
#[derive(Drop)]
pub enum Want {
    Nothing,
    File(Str),
}
