//! Laws of schemes: functions that do nothing, each for the law that it ensures. Those of one group's schemes are shown again.
ghost use Rattle.rt_solve.specs.Laws.{OneSolution};
ghost use Rattle.rt_solve.specs.Runs.{AnyOrder};

pub use rt_settle::laws::{alike, constants, one_choice, reduced, scheme};

/// There is one family of solved schemes: an object, the symbols that end paths, the signatures of external functions, the
/// constants of the roles and the order of constants determine it, with the procedures and their groups.
pub fn one_solution()
    ensures { OneSolution }
{
    rt_proc::laws::one_list();
    rt_table::laws::one_list();
    one_choice();
}

/// Whatever the events of a run's workers, the schemes are exactly those of the members of the published groups, each of these groups is
/// solved, a group is held or published only where each group that it calls is published, and the schemes are those of each family that
/// is solved.
pub fn any_order()
    ensures { AnyOrder }
{
    rt_table::laws::one_list();
    rt_calls::laws::callees_first();
    one_choice();
}
