//! Counted judgements, the measure of how far one variable lies below another through pointers (PLDI 2016, section 5 and
//! appendix D): definitions and laws alone, on which the saturation of a crate above rests.
//!
//! A state is a variable with a sign, the variance of a rest that is to follow it. A judgement from one state to another
//! with a count says: where both rests are spellings of one word and the second's number is greater by at least the count,
//! the first variable with its rest lies below the second with its own.
#![tactic(auto)]

pub mod laws;
