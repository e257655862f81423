// Definitions of a location.

/// A definition of a location: the one that stands before the entry site and defines every location, or the one at a site,
/// named by its number. Entry comes first, then sites rise.
#[derive(Clone, Copy, PartialEq, Eq, Hash)]
pub enum Def {
    Entry,
    At(u32),
}
