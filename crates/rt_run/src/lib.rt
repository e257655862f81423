//! The program's work behind its words: what it reads, what it writes, and with which status it ends.
#![tactic(auto)]

mod analysis;
mod content;
mod entail;
mod entries;
mod globals;
mod headers;
mod inputs;
pub mod laws;
mod lists;
mod no_text;
mod objects;
mod refusal;
mod reports;
mod sketches;
mod stop;
mod texts;
mod top;
mod words;

pub use refusal::{ObjectFault, Refusal};
pub use top::run;
