//! What procedures take and give: of each call, which argument registers the callee takes there, and which results it gives.
//! Both are least relations over all procedures, and each of their rules has one premise at most of another procedure: so the
//! rules are listed, and followed from what holds without a premise.
#![tactic(auto)]

mod call;
mod calls;
mod closure;
mod endings;
mod gives;
mod interface;
mod named;
mod procedure;
mod reads;
mod rule;
mod takes;

pub use call::{Call, Calls};
pub use calls::calls_of;
pub use endings::{Numbers, ends};
