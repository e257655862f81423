// The laws of shapes: functions that do nothing, each for the law that it ensures.
ghost use Rattle.rt_shape.specs.Laws.{ReadWriteLaw, StepLaw};

/// A step from the node of a variable leads to the node of the variable with that letter more.
pub fn step()
    ensures { StepLaw }
{}

/// In a shape of lines a node has a load and a store exactly if each of its variables has both.
pub fn read_write()
    ensures { ReadWriteLaw }
{}
