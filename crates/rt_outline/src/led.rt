// Answers of arcs.

/// Whether a variable lies below another, as far as arcs say.
#[derive(Clone, Copy, PartialEq, Eq)]
pub enum Led {
    /// It isn't derivable.
    No,
    /// It is derivable.
    Yes,
    /// The arcs don't say.
    Open,
}
