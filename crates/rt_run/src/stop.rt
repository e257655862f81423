// Why a command's text is not made, and how its work ends.
use crate::refusal::Refusal;

/// Why a command has no text to write.
#[derive(Drop)]
pub enum Stop<'a> {
    /// An input is refused.
    Refused(Refusal),
    /// A read of the file of this name failed.
    NoRead(&'a str),
    /// There is no memory.
    NoMemory,
}

/// How the work of a command ends.
#[derive(Drop)]
pub enum Ending<'a> {
    /// The text is written.
    Written,
    /// A write failed.
    NoWrite,
    /// There is no text.
    Stopped(Stop<'a>),
}
