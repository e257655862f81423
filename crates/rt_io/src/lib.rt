//! What a run of the program reads from and writes to: files by name, and sinks that take a text in pieces. Each has a
//! form in memory, of which contracts say everything.
#![tactic(auto)]

mod bytes_sink;
mod files;
mod files_of;
mod listed;
mod put;
mod sink;

pub use bytes_sink::BytesSink;
pub use files::{FileFault, Files};
pub use files_of::FilesOf;
pub use put::{put_all, put_line};
pub use sink::{Sink, SinkFault};
