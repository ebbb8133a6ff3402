//! How a program ends.

/// How a program ends. The number, from 0, is the exit code.
#[derive(Clone, Copy, Debug, PartialEq, Eq)]
pub enum Status {
    /// The program came to its end, and all was accepted.
    Done,
    /// The program came to its end, and something was refused: a statement, a certificate, a text.
    SomeRefused,
    /// The words are of no stated form; the usage line was written.
    Usage,
    /// The schema is refused; one line was written.
    BadSchema,
    /// A call of the shelf failed.
    ReadFault,
    /// A call of the sink failed; a front of the output was written.
    WriteFault,
    /// A file has more bytes than its limit.
    TooLong,
    /// Memory was wanting; what was written is whole texts.
    NoMemory,
}
