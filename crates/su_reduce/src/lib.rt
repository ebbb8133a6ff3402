//! Acyclic cores: an ear order of edges, and the candidates that semijoins along it leave.
//!
//! An edge is a list of symbols with the value lists that it may be given. An ear is an edge that shares
//! variables only with one other, its parent; edges that can be taken away ear by ear are acyclic. It
//! never matters which ear is taken first, so the order is found greedily. Along the order each parent
//! loses the candidates without partner in the ear, and on the way back each ear those without partner
//! in its parent: what is left then are the candidates that take part in a valuation of all edges. An
//! ear without parent takes the next one for it, so that an edge without candidates empties all.
//!
//! Values are numbers while rows are compared: `Codes` gives each value one, a `Sheet` has rows of them
//! side by side, a `Distinct` each row once, and `partner_marks` is the semijoin of two sheets. These
//! serve whoever joins rows.
#![tactic(auto)]

mod codes;
mod crossing;
mod distinct;
mod edges;
mod fitting;
mod hashes;
mod orders;
mod partners;
mod reducing;
mod semijoins;
mod shapes;
mod sharing;
mod sheeting;
mod sheets;
mod support;

pub use codes::Codes;
pub use distinct::Distinct;
pub use edges::{Ear, Edge};
pub use hashes::{bucket, fill, same_key};
pub use orders::ears;
pub use partners::{Side, partner_marks};
pub use reducing::reduce;
pub use shapes::{Columns, Shape, fits, shape_of, value_at, variable_of};
pub use sheets::Sheet;
pub use support::{Counted, Support};
