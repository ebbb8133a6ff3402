//! What a command changes, found before it is carried out.
//!
//! `effect_of` looks at a command, the file that it is handed and the database before it: a definition
//! is added to the schema, an insert or a load puts rows in, a delete takes rows out. Where the command
//! is accepted the effect is what it did; where it is refused nothing has changed.
#![tactic(auto)]

mod deleting;
mod effects;
mod finding;
mod inserting;
mod loading;
mod tables;

pub use effects::Effect;
pub use finding::effect_of;
