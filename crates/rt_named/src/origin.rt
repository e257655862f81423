// How a variable is made.
use rt_lines::{Base, Label};

/// How a variable is made.
#[derive(Clone, Copy, PartialEq, Eq, Hash)]
pub enum Origin {
    /// It is a base alone.
    Bare(Base),
    /// It is the variable of a number, with a letter more.
    Longer(u32, Label),
}
