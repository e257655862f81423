//! Derived variables, words of labels, lines of constraints, names and orders of constants: the types
//! that the rules of derivation speak of.
#![tactic(auto)]

mod deduplication;
mod existentials;
mod label;
mod line;
mod names;
mod numbering;
mod order;
mod sides;
mod variable;
mod word;

pub use deduplication::deduplicate;
pub use existentials::first_free;
pub use label::{Label, Loc, Variance};
pub use line::{Direction, Judge, Line, Lines};
pub use names::{Names, is_name};
pub use numbering::number;
pub use order::Order;
pub use sides::Sides;
pub use variable::{Base, Dtv};
pub use word::{Word, variance_of};
