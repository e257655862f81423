//! Signature files: what is known of functions outside an object, by their names.
#![tactic(auto)]

mod body;
mod fault;
mod heading;
pub mod laws;
mod line;
mod prototype;
mod reader;
mod remarks;
mod sigs;
mod unknown;
mod version;

pub use fault::SigFault;
pub use reader::read;
pub use sigs::Sigs;
