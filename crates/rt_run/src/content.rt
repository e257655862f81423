// What is written of an object.

/// What is written of each of an object's procedures.
#[derive(Clone, Copy, PartialEq, Eq)]
pub enum Content {
    /// Lines: a report.
    Lines(Told),
    /// The sketch of its scheme.
    Sketches,
    /// What a C header declares by its sketch.
    Header,
}

/// Which lines a report gives of each procedure.
#[derive(Clone, Copy, PartialEq, Eq)]
pub enum Told {
    /// Those of its instructions.
    Constraints,
    /// Those of its scheme, which judge the same, with nothing to spare.
    Schemes,
}
