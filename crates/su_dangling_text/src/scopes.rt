//! Objects whose views are joined.
use su_base::ObjSet;

/// The objects of a maximal object, which is told by its number, or those of its core.
#[derive(Clone, Copy)]
pub struct Scope {
    pub maximal: usize,
    pub core: bool,
    pub objects: ObjSet,
}
