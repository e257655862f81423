//! The laws of named variables: functions that do nothing, each for the law that it ensures.
ghost use Rattle.rt_named.specs.Laws.{ContentsLaw, OnceLaw};

/// The variables that lines name are the prefixes of their sides and of the other variables, each once.
pub fn contents()
    ensures prefixes { ContentsLaw }
    ensures once { OnceLaw }
{}
