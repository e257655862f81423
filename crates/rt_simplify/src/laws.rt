//! What the steps of a reduction leave is tidied: a function that does nothing, for the law that it ensures.
ghost use Rattle.rt_simplify.specs.Laws.{RoundTidiedLaw, TidiedTwiceLaw};

/// Tidied lines stay as they are when they are tidied, and so does what a round leaves.
pub fn tidied()
    ensures twice { TidiedTwiceLaw }
    ensures round { RoundTidiedLaw }
{}
