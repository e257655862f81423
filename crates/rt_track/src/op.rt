// What a definition of a register computes.

/// What the definition of a register at a site gives: a value of its own, a constant, a symbol's address plus an offset in
/// bytes, what a register holds there plus a number, or the sum of what two registers hold there. Sums wrap at 32 bits.
#[derive(Clone, Copy)]
pub enum Op {
    Own,
    Const(u32),
    Sym(u32, i32),
    AddI(u8, i32),
    Add(u8, u8),
}
