// The law of texts: a function that does nothing, for the law that it ensures.
ghost use Rattle.rt_texts.specs.Laws.{OneLine};

/// No text is that of two lines.
pub fn one_line()
    ensures { OneLine }
{}
