//! The outside: a shelf of files, a sink of bytes, and whole reads and writes over them.
//!
//! `Outside` is both as one value, over which programs are run: it reads files whole, tells texts, and
//! hands over at the end; `Status` is how a program ends, and `command_words` what it was called with.
//!
//! Each object counts its faults, and a call answers `Failed` only where that count rose in the
//! call. What was read and written is told by the objects in memory, and by no real file or stream:
//! `FileShelf` and `StreamSink` are the trusted edge, a few lines each. A whole read takes memory
//! for the file alone; a whole write takes none.
#![tactic(auto)]

mod buffered_sink;
mod ends;
mod file_shelf;
mod files;
mod holding_sink;
mod memory_shelf;
mod memory_sink;
mod outside;
mod pieces;
mod rooms;
mod shelf;
mod sink;
mod status;
mod steady_shelf;
mod steady_sink;
mod stream_sink;
mod whole;
mod words;

pub use buffered_sink::BufferedSink;
pub use ends::{Failed, ReadEnd};
pub use file_shelf::FileShelf;
pub use files::File;
pub use holding_sink::HoldingSink;
pub use memory_shelf::MemoryShelf;
pub use memory_sink::MemorySink;
pub use outside::Outside;
pub use shelf::Shelf;
pub use sink::Sink;
pub use status::Status;
pub use steady_shelf::SteadyShelf;
pub use steady_sink::SteadySink;
pub use stream_sink::StreamSink;
pub use whole::{read_all, write_all};
pub use words::command_words;
