//! Schemes reduced (PLDI 2016, section 5): rounds until nothing is left to do, and the last steps of a round: existentials
//! that equal other variables give their places to them, and lines that others derive are dropped. The definitions stand in
//! `rt_reduction`.
#![tactic(auto)]

mod alike;
mod bases;
mod before;
mod bounds;
mod confining;
mod copying;
mod deciding;
mod derivable;
mod dropping;
mod early;
mod handing;
mod inner;
mod loose;
mod merging;
mod opened;
mod parting;
mod reducing;
mod rounds;
mod settling;
mod staying;

pub use before::comes_before;
pub use dropping::drop_derivable;
pub use merging::merge_equal;
pub use reducing::reduce;
pub use rounds::round;
