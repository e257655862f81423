// What of a scheme is instantiated.
use rt_lines::Label;

// What an existential of an instance is for.
#[derive(Clone, Copy, PartialEq, Eq, Hash)]
pub enum Origin {
    // The scheme's own variable of a label, that of an argument or a result.
    Port(Label),
    // The scheme's existential of a number.
    Bound(u32),
}
