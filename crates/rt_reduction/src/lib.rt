//! Schemes that are reduced to what their outside can see of them (PLDI 2016, section 5): definitions and laws alone.
//!
//! The definitions stand in `specs/`: lines that others derive and that are dropped, existentials that are defined or
//! consumed alike and become one. The laws say that the outside can derive the same from what is left.
#![tactic(auto)]

pub mod laws;
