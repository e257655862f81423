// What jumps through registers come to.
use rt_base::Sequence;
use rt_link::Place;

// What a jump through a register that is no return comes to.
//
// - NoTable: it reads no table, or one without entries.
// - BadTarget: an entry of its table doesn't lead to code at a good place.
// - Targets: each place that the entries lead to, once, in their order.
#[derive(Drop)]
pub(crate) enum Outcome {
    NoTable,
    BadTarget,
    Targets(Sequence<Place>),
}
