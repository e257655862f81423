//! Existentials that give their places to their only definition or their only consumer, one after another (PLDI 2016,
//! section 5). The definitions stand in `specs/`.
#![tactic(auto)]

mod choosing;
mod digest;
mod index;
pub mod laws;
mod places;
mod putting;
mod putting_away;
mod row;
mod tidying;

pub use choosing::{Side, candidate};
pub use putting::{put, put_in};
pub use putting_away::put_away;
pub use tidying::tidy;
