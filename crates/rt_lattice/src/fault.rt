// Why a text is no lattice file.
ghost use Rattle.std.specs.Prelude.{◌≡◌};
ghost use Rattle.rt_lattice.specs.declared.fault.LatFault.TheVariants.{Memory};

use crate::role::Role;
use rt_base::Bytes;
use std::alloc::AllocError;

/// Why a text is no lattice file. The first of these that holds is given, in this order:
///
/// - `TooMany`: the text has more than 65,536 bytes.
/// - `NotToml`: it isn't UTF-8, or no document of TOML.
/// - `Shape`, with the key: `names` is no array of strings, or one of them isn't spelled `[a-z][a-z0-9_]*` with at most
///   32 bytes, or one stands twice; `below` is no array of arrays of two strings; `roles` is no table of strings; another
///   key stands at the top, the least by bytes. A missing key is one that isn't of its form.
/// - `TooMany`: `names` is an array of more than 256 strings. It is given before their spelling is looked at.
/// - `Unknown`: a pair of `below` has a name that isn't in `names`; the first, a pair's first name before its second.
/// - `Cycle`: a name lies below another one that lies below it, by the pairs of `below`, read on and on; the first such
///   name of `names`.
/// - `NoTop`, `NoBottom`: no name is above all; no name is below all.
/// - `NoJoin`: two names have no least upper bound; the pair whose earlier name in `names` is first, and then whose later
///   name is first.
/// - `NoRole`: a role isn't in `roles`, or what stands there isn't in `names`; the first in the order of [`Role`]. Other
///   keys of `roles` are passed over.
///
/// `Memory` may come in place of each.
#[derive(Debug, Drop)]
pub enum LatFault {
    NotToml,
    Shape(Bytes),
    Unknown(Bytes),
    Cycle(Bytes),
    NoTop,
    NoBottom,
    NoJoin(Bytes, Bytes),
    NoRole(Role),
    TooMany,
    Memory,
}

impl From<AllocError> for LatFault {
    ghost from_gives = { λ _ fault. fault ≡ Memory };

    fn from(_: AllocError) -> LatFault {
        LatFault::Memory
    }
}
