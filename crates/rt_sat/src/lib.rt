//! Exact saturation (PLDI 2016, section 5 and appendix D), which decides each judgement. Edges with counts of how far a
//! common rest has to go through pointers are closed under pushes, with the halving of a push through a pointer; what lies
//! below what is then a least count of nought.
#![tactic(auto)]

mod asking;
mod building;
mod checking;
mod closing;
mod complete;
mod count;
mod digits;
mod ends;
mod entering;
mod family;
mod filling;
mod gathering;
mod halving;
mod hints;
mod increments;
mod indexing;
mod judging;
pub mod laws;
mod layers;
mod links;
mod marking;
mod passing;
mod pushing;
mod reached;
mod search;
mod spreading;
mod state;
mod stepping;
mod table;
mod weights;

pub use count::Count;
pub use increments::{Extent, GrowingTable, Snapshot};
pub use judging::derives;
pub use state::{Edge, State};
pub use table::{Table, saturated};
pub use weights::{Sat, saturate};
