//! What lines derive loosely, where load and store through one readable and writable pointer are of one type, as the marks
//! of sketches have it: definitions and laws alone.
//!
//! A way leads from one variable to another by the kind of the letters that are to follow both: letters among which a load
//! can be exchanged for a store, or letters of one variance. The marks of a variable are those of the named variables from
//! which ways lead to it, and to which ways lead from it, and these are found letter by letter.
#![tactic(auto)]

pub mod laws;
