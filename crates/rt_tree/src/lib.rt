//! Regular trees (deterministic graphs of nodes with edges by labels, in which a word leads to one node at most): each node
//! has a lower and an upper mark. Contracts see a tree as the list of its nodes.
#![tactic(auto)]

mod blocks;
mod entry;
mod equality;
pub mod laws;
mod links;
mod order;
mod parting;
mod quotient;
mod refining;
mod splitting;
mod spreading;
mod tree;
mod waiting;

pub use equality::{Work, equal};
pub use parting::{Graph, Partition};
pub use quotient::minimal;
pub use tree::Tree;
