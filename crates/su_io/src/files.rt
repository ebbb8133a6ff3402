//! A file of a shelf in memory.
use su_base::{List, Str};

/// A name and the bytes under it. Of several files of one name the first counts.
#[derive(Drop)]
pub struct File {
    pub name: Str,
    pub bytes: List<u8>,
}
