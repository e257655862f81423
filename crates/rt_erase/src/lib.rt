//! What a header keeps of a tree: pointers, the fields of what they lead to, and the names of scalars (PLDI 2016,
//! section 4.3); and which of those that pointers lead to are one.
#![tactic(auto)]

mod erasing;
mod erasure;
mod extremes;
mod row;
mod sorting;

pub use erasure::Erasure;
pub use extremes::Extremes;
pub use row::{Row, fields, pointee, scalar};
