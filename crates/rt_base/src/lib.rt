//! What the whole workspace shares: lists that contracts see as lists, copies that want memory, and the
//! definitions of first faults and of counts that rose, which stand in `specs/`.
#![tactic(auto)]

mod copy;
mod sequence;

pub use copy::Copied;
pub use sequence::{Bytes, Sequence};

/// The error of a call that found no memory. It is std's `AllocError`.
pub type Memory = std::alloc::AllocError;
