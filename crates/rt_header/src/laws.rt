//! The law of headers: a function that does nothing, for the law that it ensures.
ghost use Rattle.rt_header.specs.Laws.{OneHeaderOf};

/// Sketches have one header: the declarations are determined by what they say of arguments, results, pointers and fields,
/// since structs differ and are numbered as they are first met.
pub fn one_header_of()
    ensures { OneHeaderOf }
{}
