//! From instructions to lines: what each instruction of a procedure says of the types of what it reads and writes.
#![tactic(auto)]

mod arguments;
mod calls;
mod computations;
mod context;
mod facts;
mod flows;
mod instances;
mod item;
mod labels;
pub mod laws;
mod lists;
mod loads;
mod merges;
mod pointer;
mod pointers;
mod preparation;
mod receiver;
mod results;
mod returns;
mod side;
mod sides;
mod sites;
mod stores;
mod taken;
mod target;
mod targets;
mod traced;
mod variables;
mod words;

pub use facts::Facts;
pub use item::Item;
pub use lists::{Bodies, lines_of};
pub use pointer::Pointer;
pub use preparation::prepare;
pub use rt_liveness::{Numbers, ends};
pub use side::Side;
