// What sides come to.
use crate::side::Side;

/// What the side of what a site wrote into a register comes to: it is known, or, of a call of what another site wrote into a
/// register, the result of that.
#[derive(Drop)]
pub(crate) enum Traced {
    Known(Option<Side>),
    Through { site: u32, register: u8 },
}
