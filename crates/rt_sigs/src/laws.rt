//! The laws of signature files: functions that do nothing, each for the law that it ensures.
ghost use Rattle.rt_sigs.specs.Laws.{NoFaultLaw, OneFaultLaw, OneFileLaw, UpgradeLaw};

/// A text of the first version with the line `version 2` before it is one of the second version, and stands for the same
/// signatures.
pub fn upgrade()
    ensures { UpgradeLaw }
{}

/// A text stands for one list of signatures alone.
pub fn one_file()
    ensures { OneFileLaw }
{}

/// A text of signatures that is not too long has no fault but out of memory.
pub fn no_fault()
    ensures { NoFaultLaw }
{}

/// A text has one fault besides out of memory.
pub fn one_fault()
    ensures { OneFaultLaw }
{}
