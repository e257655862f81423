// The ends of a lattice.

/// How many names a lattice has, and the numbers of its top and of its bottom.
#[derive(Clone, Copy, PartialEq, Eq)]
pub struct Extremes {
    /// How many names there are.
    pub count: u16,
    /// The number of the top.
    pub top: u16,
    /// The number of the bottom.
    pub bottom: u16,
}
