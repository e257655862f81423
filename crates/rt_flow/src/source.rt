// Where the definitions of a location that reach a site stand.

/// The definitions of a location that reach a site: the one at a site alone, or a list that sites and locations share, named
/// by its number.
#[derive(Clone, Copy, PartialEq, Eq)]
pub enum Source {
    Own(u32),
    Shared(u32),
}
