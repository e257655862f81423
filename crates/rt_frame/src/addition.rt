// What additions add.

/// What an addition of two registers adds: an index to a pointer, on which side, two indices, or what can't be said.
#[derive(Clone, Copy)]
pub enum Addition {
    IndexLeft,
    IndexRight,
    Indices,
    Untold,
}
