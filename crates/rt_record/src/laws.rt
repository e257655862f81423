//! The laws of existentials that hold fields: a function that does nothing, for the laws that it ensures.
ghost use Rattle.rt_record.specs.Laws.{OneSplitLaw, PartsLaw, SplitsAlikeLaw, SplitsNamesLaw};

/// Where every existential is inside, the outside can derive the same when the fields of existentials that do nothing but
/// hold fields become existentials of their own; the numbers that `split` gives them are such; one list at most is left;
/// and but for existentials it names the bases that the lines name.
pub fn splitting()
    ensures alike { SplitsAlikeLaw }
    ensures parts { PartsLaw }
    ensures one { OneSplitLaw }
    ensures names { SplitsNamesLaw }
{}
