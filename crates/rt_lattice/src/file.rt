// What a lattice file says.
use rt_base::{Bytes, Sequence};
use rt_lines::Names;

// A name, and one that it is below.
#[derive(Drop)]
pub(crate) struct Pair {
    pub(crate) lower: Bytes,
    pub(crate) upper: Bytes,
}

// The key of a role, and the name for it.
#[derive(Drop)]
pub(crate) struct RoleName {
    pub(crate) key: Bytes,
    pub(crate) name: Bytes,
}

// A lattice file whose form is right.
#[derive(Drop)]
pub(crate) struct File {
    pub(crate) names: Names,
    pub(crate) below: Sequence<Pair>,
    pub(crate) roles: Sequence<RoleName>,
}
