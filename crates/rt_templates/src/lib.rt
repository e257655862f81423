//! The lists of the table as templates, and that schemes say what all of the code below them says: laws alone.
#![tactic(auto)]

pub mod laws;
