// Labels, the letters of words.
ghost use Rattle.std.specs.Prelude.{◌≡◌};
ghost use Rattle.rt_lines.specs.Words.{label_variance, times};

/// Where an argument is passed (RISC-V psABI, integer calling convention).
#[derive(Clone, Copy, PartialEq, Eq, Hash)]
pub enum Loc {
    /// The argument register a0 to a7, by its number 0 to 7.
    Arg(u8),
    /// The word of the caller's frame at this offset in bytes from the stack pointer at the entry: a
    /// multiple of 4, at most 65532.
    Stack(u32),
}

/// A capability of a value (PLDI 2016, section 3): what can be taken from it or put into it.
#[derive(Clone, Copy, PartialEq, Eq, Hash)]
pub enum Label {
    /// An argument of a procedure.
    In(Loc),
    /// A result of a procedure, in a0 or a1, by the number 0 or 1.
    Out(u8),
    /// What is read through a pointer.
    Load,
    /// What is written through a pointer.
    Store,
    /// A field of so many bits, 8, 16 or 32, at an offset in bytes.
    Field(u8, i32),
}

/// Whether a label or a word keeps the order of the values below it or turns it round.
#[derive(Clone, Copy, PartialEq, Eq)]
pub enum Variance {
    /// Keeps the order.
    Co,
    /// Turns the order round.
    Contra,
}

// What an empty place of a word's storage holds.
impl Default for Label {
    fn default() -> Self {
        Label::Load
    }
}

impl Label {
    /// The label's variance: arguments and what is written are contravariant, the others covariant.
    pub fn variance(self) -> Variance
        ensures { result ≡ label_variance self }
    {
        match self {
            Label::In(_) | Label::Store => Variance::Contra,
            Label::Out(_) | Label::Load | Label::Field(_, _) => Variance::Co,
        }
    }
}

impl Variance {
    /// The variance of a word of two parts.
    pub fn times(self, other: Variance) -> Variance
        ensures { result ≡ times self other }
    {
        match (self, other) {
            (Variance::Co, Variance::Co) | (Variance::Contra, Variance::Contra) => Variance::Co,
            (Variance::Co, Variance::Contra) | (Variance::Contra, Variance::Co) => Variance::Contra,
        }
    }
}
