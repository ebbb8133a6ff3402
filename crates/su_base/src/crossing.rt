//! Every public type may be moved to another thread and shared between threads, but for `Steps`.
use crate::attr_sets::AttrSet;
use crate::boxes::Boxed;
use crate::lists::{List, NoMemory};
use crate::obj_sets::ObjSet;
use crate::texts::Str;
use crate::values::{Column, Kind, Row, Value};

/// A call of it is the proof that `T` may be moved to another thread and shared between threads.
/// The crates above call it for their own types.
pub fn crosses_threads<T: Send + Sync>() {}

fn types_cross_threads() {
    crosses_threads::<NoMemory>();
    crosses_threads::<Str>();
    crosses_threads::<Kind>();
    crosses_threads::<Value>();
    crosses_threads::<Row>();
    crosses_threads::<Column>();
    crosses_threads::<AttrSet>();
    crosses_threads::<ObjSet>();
}

fn holders_cross_threads<T: Send + Sync>() {
    crosses_threads::<List<T>>();
    crosses_threads::<Boxed<T>>();
}
