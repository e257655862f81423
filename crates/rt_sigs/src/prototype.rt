// What a signature says of its function.
use rt_scheme::Scheme;

// A function's scheme, whether the function returns, and how many registers it takes, where that is said.
#[derive(Drop)]
pub struct Prototype {
    pub scheme: Scheme,
    pub returns: bool,
    pub args: Option<u8>,
}
