// The states and steps of lines.

use rt_base::Sequence;
use rt_shape::Shape;
use rt_ways::Ways;

// What states of lines are made of: the shape of the lines and the ways between named variables; for each named variable the lower
// and the upper bounds that lines give it.
#[derive(Drop)]
pub(crate) struct Machine {
    pub(crate) shape: Shape,
    pub(crate) ways: Ways,
    pub(crate) lows: Vec<Sequence<u16>>,
    pub(crate) ups: Vec<Sequence<u16>>,
}
