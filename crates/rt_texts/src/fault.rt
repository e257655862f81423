// What is wrong with a text.

/// Why a text was not read.
#[derive(Clone, Copy, Debug, PartialEq, Eq)]
pub enum TextFault {
    /// The text is that of no value. The number is that of the line, from 1, at which no text of lines goes
    /// on, and 0 where the text is not read by lines.
    BadText(u32),
    /// There is no memory.
    Memory,
}
