//! The laws of idle existentials: functions that do nothing, each for the law that it ensures.
ghost use Rattle.rt_trim.specs.Laws.{OneTrimLaw, TrimsAlikeLaw, TrimsNamesLaw};

/// Where every existential is inside, the outside can derive the same when the lines of idle existentials become their
/// shapes; one list at most is left; and it names the bases that the lines name.
pub fn trimming()
    ensures alike { TrimsAlikeLaw }
    ensures one { OneTrimLaw }
    ensures names { TrimsNamesLaw }
{}
