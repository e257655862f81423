//! Whether a judgement is derivable from the lines of a text.
#![tactic(auto)]

mod entail;
mod fault;
mod file;

pub use entail::entails;
pub use fault::EntailFault;
pub use file::read_file;
