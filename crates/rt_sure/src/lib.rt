//! What becomes of lines when those go that the others derive, as far as it is sure beforehand (PLDI 2016, section 5), where it
//! is known of some lines that they stay: a line goes that those derive which stay, and those before it, also where they do so
//! by the shapes of others, if its own shape is sure. A table says so to which the lines are added one by one. Ways between
//! variables, which are saturated once, say which variables lie below which, also when lines are left out.
#![tactic(auto)]

mod describing;
mod fate;
mod ground;
mod shapes;
mod shortening;
mod tables;
mod ways;

pub use fate::{Fate, Fated, fates, is_bound};
pub use ground::Ground;
pub use tables::table_of;
pub use ways::Ways;
