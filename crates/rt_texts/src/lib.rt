//! The texts of derived variables, lines and judgements, printed and read. Each value has one text, which
//! `specs/Texts.antt` states.
#![tactic(auto)]

mod cut;
mod fault;
mod label;
pub mod laws;
mod line;
mod print;
mod variable;

pub use cut::{after_front, read_number, split_before};
pub use fault::TextFault;
pub use line::{read_judge, read_line};
pub use print::{
    print_label, print_line, print_lines, print_number, print_numbered, print_variable,
};
