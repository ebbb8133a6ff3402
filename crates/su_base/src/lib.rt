//! What every other crate stands on: lists, texts, values, rows, names, small sets and a counter.
//!
//! Contracts see a `List` as the list of its items, a `Str` as its bytes and a set as a finite set.
//! A copy equals its source. Order is: whole numbers before texts, numbers as numbers, texts by
//! their bytes, rows value by value. Equality, order and hash agree with it, so values and rows
//! serve as keys. The sets are one machine word or two, copied freely, and take no memory.
#![tactic(auto)]

mod attr_sets;
mod boxes;
mod crossing;
mod lists;
mod names;
mod obj_sets;
pub mod parts;
mod sorted;
mod steps;
mod texts;
mod values;

pub use attr_sets::AttrSet;
pub use boxes::Boxed;
pub use crossing::crosses_threads;
pub use lists::{List, NoMemory};
pub use names::{copy_name, is_name, letter, letter_or_digit};
pub use obj_sets::ObjSet;
pub use sorted::{sorted_rows, sorted_values};
pub use steps::Steps;
pub use texts::Str;
pub use values::{Column, Kind, Row, Value, compare_rows, copy_row};
