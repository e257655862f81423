//! Tests of what the built program can't show: runs over files and streams in memory, and public functions of lower crates
//! that no command calls. They stand above all crates, so that no crate is proved twice for them.
#![tactic(auto)]

#[cfg(test)]
mod tests;
