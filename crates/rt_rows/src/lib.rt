//! Lines whose existentials have no numbers yet: each is named by what it stands for. Their numbers come when the rows of
//! a group of procedures are there.
#![tactic(auto)]

mod name;
mod numbering;
mod row;

pub use name::Name;
pub use numbering::group_lines;
pub use row::{Root, Row, Rows, Term};
