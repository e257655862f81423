// Sides of rows.
use rt_rows::Term;

/// What a value is to a row: a variable, or the constant of code.
#[derive(Drop)]
pub enum Side {
    Variable(Term),
    Code,
}
