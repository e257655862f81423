// Values of registers.
ghost use Rattle.std.specs.Prelude.{◌≡◌, ◌+ℤ◌, ◌↔◌, IsTrue};
ghost use Rattle.std.specs.Int.{int_wrap, w32};
ghost use Rattle.rt_track.specs.Values.{onto, plus, sum};

/// What a register holds: a constant, a symbol's address plus an offset in bytes, the stack pointer at the entry plus an
/// offset, what a register held at the entry plus an offset, what the definition of a register at a site gave plus an offset,
/// or one of several values that differ. Constants and offsets wrap at 32 bits.
#[derive(Clone, Copy, PartialEq, Eq)]
pub enum Value {
    Const(u32),
    Sym(u32, i32),
    Frame(i32),
    Entry(u8, i32),
    At(u32, u8, i32),
    Multi,
}

// The sum of two offsets, which wraps at 32 bits.
fn wrapping_sum(offset: i32, more: i32) -> i32
    ensures { result ≡ int_wrap w32 (offset +ℤ more) }
{
    offset.wrapping_add(more)
}

impl Value {
    // Whether two values are one.
    pub(crate) fn is(self, other: Value) -> bool
        ensures { IsTrue result ↔ (self ≡ other) }
    {
        self == other
    }

    /// The value plus a number, which wraps at 32 bits.
    pub fn plus(self, number: i32) -> Value
        ensures { result ≡ plus self number }
    {
        match self {
            Value::Const(word) => Value::Const(word.wrapping_add_signed(number)),
            Value::Sym(symbol, offset) => Value::Sym(symbol, wrapping_sum(offset, number)),
            Value::Frame(offset) => Value::Frame(wrapping_sum(offset, number)),
            Value::Entry(reg, offset) => Value::Entry(reg, wrapping_sum(offset, number)),
            Value::At(site, reg, offset) => Value::At(site, reg, wrapping_sum(offset, number)),
            Value::Multi => Value::Multi,
        }
    }

    // The sum of two values, which the definition of a register at a site gives.
    pub(crate) fn sum(self, other: Value, site: u32, reg: u8) -> Value
        ensures { result ≡ sum site reg self other }
    {
        match self {
            Value::Const(word) => other.plus(word.cast_signed()),
            Value::Multi => Value::Multi,
            _ => self.onto(other, site, reg),
        }
    }

    // The same, where the first is neither a constant nor several.
    fn onto(self, other: Value, site: u32, reg: u8) -> Value
        ensures { result ≡ onto site reg self other }
    {
        match other {
            Value::Const(word) => self.plus(word.cast_signed()),
            Value::Multi => Value::Multi,
            _ => Value::At(site, reg, 0),
        }
    }
}
