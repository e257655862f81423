// The law of the chain: a function that does nothing, for the law that it ensures.
ghost use Rattle.rt_chain.specs.Numbers.{ChainLaw};

/// On lines that are all `var` one variable of a base lies below another exactly if both exist, their words are spellings
/// of each other, and the number of the first is at most that of the second.
pub fn chain()
    ensures { ChainLaw }
{}
