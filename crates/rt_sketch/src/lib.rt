//! Sketches of schemes (PLDI 2016, section 3.5): the tree of the words that the lines of a scheme say its procedure has, with
//! marks. A mark's lower part is the join of the names that are loosely below, its upper part the meet of those above.
#![tactic(auto)]

mod bounds;
mod growth;
pub mod laws;
mod letters;
mod machine;
mod making;
mod marks;
mod rows;
mod sketch;
mod state;
mod stepping;
mod text;

pub use sketch::{Sketch, of};
pub use text::print;
