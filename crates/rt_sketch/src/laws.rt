// Laws of sketches: functions that do nothing, for the laws that they ensure.
ghost use Rattle.rt_sketch.specs.Laws.{OneEndLaw, OneSketch};

/// In a sketch the load and the store of what can be read and written through lead to one node, since the same words with the
/// same marks are behind both.
pub fn one_end()
    ensures { OneEndLaw }
{}

/// Lines have one sketch for a procedure, by an order in which no two constants are below each other.
pub fn one_sketch()
    ensures { OneSketch }
{
    rt_tree::laws::one_tree();
}
