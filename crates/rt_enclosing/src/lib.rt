//! Two relations between variables without counts that enclose derivability of `X <= Y`: a lower one, of which each pair
//! is derivable, and upper ones, which have each derivable pair. Definitions and laws alone. Whoever has both asks the
//! counted judgements of rt_bridge only where they differ.
#![tactic(auto)]

pub mod laws;
