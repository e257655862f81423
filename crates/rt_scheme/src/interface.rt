// What a new existential is for.
use rt_lines::Label;

// An argument or a result of a procedure.
#[derive(Clone, Copy, PartialEq, Eq, Hash)]
pub struct Interface {
    // The procedure's number.
    pub procedure: u32,
    // The label of the argument or the result.
    pub label: Label,
}
