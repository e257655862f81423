//! What holds of each procedure of an object.
ghost use Rattle.rt_body.specs.Readable.{IsLawOfProcs};

/// The sites of each procedure of an object rise by their places, its entry and each step lead to one of them, and their
/// registers are x0 to x31.
pub fn procs()
    ensures { IsLawOfProcs }
{
    rt_proc::laws::steps();
    rt_proc::laws::callees();
}
