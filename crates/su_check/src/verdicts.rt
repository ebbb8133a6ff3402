//! The verdict on a certificate.

/// What is at fault.
#[derive(Clone, Copy, PartialEq, Eq, Debug)]
pub enum Fault {
    /// The bytes are those of no certificate.
    Syntax,
    /// The form of this term, by its place from 0.
    Form(u32),
    /// The fold of this term.
    Fold(u32),
    /// The tree of this row of this term.
    Tree { term: u32, row: u8 },
}

/// The verdict.
#[derive(Clone, Copy, PartialEq, Eq, Debug)]
pub enum Checked {
    /// All terms are good; how many they are.
    Yes { terms: u32 },
    /// The first fault.
    No(Fault),
}
