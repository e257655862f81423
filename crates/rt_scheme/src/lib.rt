//! Type schemes of procedures and their instances; lines in which each argument and result of other procedures is an
//! existential of its own; and reports: what was found of each procedure of an object, and their one text. The text of a
//! name, which other outputs write too, is a part of its own.
#![tactic(auto)]

mod existential;
mod instance;
mod interface;
pub mod laws;
mod name;
mod name_reader;
mod origin;
mod report;
mod scheme;
mod schemes;
mod split_existentials;
mod splitting;

pub use instance::{Instance, Ports, instantiate};
pub use name::print_name;
pub use name_reader::read_name;
pub use report::{Entries, Entry, Globals, Place2, Report, print_heading, print_report};
pub use scheme::{Scheme, is_scheme_line};
pub use schemes::Schemes;
pub use splitting::{is_interface_line, split};
