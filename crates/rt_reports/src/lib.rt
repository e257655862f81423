//! Reports read from their texts: which report a text is that of, or the first line at which no report's text goes on.
#![tactic(auto)]

mod draft;
pub mod laws;
mod listed;
mod numbers;
mod parts;
mod reader;
mod row;

pub use reader::read_report;
