// Rules of what procedures take and give.

// A register of a procedure: that of an argument where it is entered, or that of a result where it returns.
#[derive(Clone, Copy, PartialEq, Eq, Hash)]
pub(crate) struct Port {
    pub(crate) procedure: u32,
    pub(crate) register: u8,
}

// When something holds: never, always, or if a procedure takes or gives a register.
#[derive(Clone, Copy, PartialEq, Eq)]
pub(crate) enum When {
    Never,
    Always,
    If(Port),
}

// When a procedure takes or gives a register.
#[derive(Clone, Copy)]
pub(crate) struct Rule {
    pub(crate) when: When,
    pub(crate) port: Port,
}
