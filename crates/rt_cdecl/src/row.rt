// The lines of headers.
use crate::declarations::{CArgs, CField, CType};

// What a function gives.
#[derive(Drop)]
pub enum Returns {
    // Nothing.
    Nothing,
    // The value in a0.
    Value(CType),
    // The pair of the values in a0 and a1.
    Both,
}

// A line of a header.
#[derive(Drop)]
pub enum Row {
    // The line of a type.
    Typedef(CType),
    // The name of the struct of this number.
    Named(u32),
    // The first line of the struct of this number.
    Opened(u32),
    // So many bytes at an offset that no field has: the offset, and how many.
    Gap(u32, u32),
    // A field.
    Member(CField),
    // The last line of a struct.
    Closed,
    // The first line of the pair of a function's results.
    Pair(u32),
    // A result in such a pair: 0 or 1, and its type.
    Half(u32, CType),
    // A function: what it gives, its number and its arguments.
    Stated(Returns, u32, CArgs),
}
