// States.

/// What decides the words and marks behind a variable: its node in the shape of the lines; the class of the named variables that
/// lie below it and above it for words with a place that can be read and written through, if there are such; those below it
/// and those above it for words that keep the order, without such a place, as numbers that rise.
#[derive(PartialEq, Eq, Hash, Drop)]
pub(crate) struct State {
    pub(crate) node: u32,
    pub(crate) class: Option<u32>,
    pub(crate) below: Vec<u32>,
    pub(crate) above: Vec<u32>,
}
