//! What the outside of lines can derive loosely, where load and store through one readable and writable pointer are of one
//! type, stays when lines are reduced to a scheme: definitions and laws alone.
//!
//! Lines that say the same to the outside need not have the same marks, so each step of the reduction is looked at. A step
//! that maps variables, keeping their letters, carries each derivation along; of the others it is followed rule by rule
//! what a loose derivation over the lines before says of those after.
#![tactic(auto)]

pub mod laws;
