// How calls are stated.
use rt_scheme::Scheme;

/// How a call is stated: a procedure of the group, which takes these words of the stack; a scheme, and how many argument registers
/// a signature says that the function takes, where it says so; what a register holds; or nothing is known of it.
#[derive(Clone, Copy)]
pub(crate) enum Target<'a> {
    Member {
        procedure: u32,
        words: &'a [u32],
    },
    Scheme {
        scheme: &'a Scheme,
        covered: Option<u8>,
    },
    Held(u8),
    Unknown,
}
