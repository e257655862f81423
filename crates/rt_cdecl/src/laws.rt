//! The law of texts: a function that does nothing, for the law that it ensures.
ghost use Rattle.rt_cdecl.specs.Laws.{OneHeader};

/// A text is that of one list of well formed declarations alone: two with one text are the same.
pub fn one_header()
    ensures { OneHeader }
{}
