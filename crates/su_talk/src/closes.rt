//! How a talk comes to its end.

/// How a talk comes to its end.
#[derive(Clone, Copy, Debug, PartialEq, Eq)]
pub enum Close {
    /// The input came to its end, and all was accepted.
    Done,
    /// The input came to its end, and some statement was refused.
    SomeRefused,
    /// Input can't be read.
    InputFault,
    /// A reply can't be handed over.
    WriteFault,
    /// A statement has more bytes than its limit.
    TooLong,
    NoMemory,
    /// A change couldn't be kept; none of its group was replied to.
    KeepFault,
}
