//! Arcs between the variables that lines name which enclose derivability of `X <= Y` from inside and from outside, without
//! counts. The inner ones have derivable pairs alone; the outer ones lead wherever a pair is derivable, also from some of
//! the lines. Both are closed under what is pushed from ways of arcs behind a letter.
#![tactic(auto)]

mod accessing;
mod adding;
mod arc;
mod beside;
mod bounds;
mod classes;
mod closing;
mod confining;
mod crossing;
mod entering;
mod found;
mod frame;
mod grouping;
mod hubs;
mod led;
mod lower;
mod meeting;
mod resting;
mod seeking;
mod sorting;
mod spreading;
mod steps;
mod sweeping;
mod turning;
mod upper;

pub use accessing::with_accesses;
pub use arc::Arc;
pub use grouping::{Classes, together};
pub use led::Led;
pub use lower::Lower;
pub use spreading::may_lead;
pub use upper::Upper;
