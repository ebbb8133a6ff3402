//! Definitions of a schema as text: a file of them is read, and a schema is shown.
//!
//! A text is at most one definition, whose names are names of the language and whose lists are not
//! empty. The whole file is cut first, with memory for one span a statement; then each statement is
//! read, up to the first at fault, with memory for its own words. Whether a definition may be added
//! is decided in `su_schema`, and how a refusal is printed elsewhere.
#![tactic(auto)]

mod crossing;
mod entries;
mod faults;
mod forms;
mod laws;
mod lists;
mod pairing;
mod reading;
mod showing;
mod spelling;

pub use entries::{attributes_in, objects_in};
pub use faults::DdlFault;
pub use forms::{definition, definition_of};
pub use laws::a_text_is_one_definition;
pub use reading::read;
pub use showing::show;
pub use spelling::{push_line, push_names};
