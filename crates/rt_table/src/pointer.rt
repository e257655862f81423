// Where addresses lead.
use rt_rows::Term;

/// Where an address leads: through a variable at an offset in bytes, to the frame itself at an offset, or nowhere that is
/// known.
#[derive(Drop)]
pub enum Pointer {
    Through(Term, i32),
    InFrame(i32),
    Nowhere,
}
