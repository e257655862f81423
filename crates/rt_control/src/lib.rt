//! What the site at a place of code does: how it goes on, whom it calls, or why it is at fault (RISC-V unprivileged
//! ISA, chapter RV32I, "Control Transfer Instructions"; RISC-V psABI, "Procedure Calls" and "Relocations").
//!
//! It looks at one site alone, and for a jump through a register at the words directly before it: [`form_at`] knows
//! neither the entries of procedures nor their bodies. A site is the two words of a far call where a relocation has
//! them stand together, else one word.
#![tactic(auto)]

mod fault;
mod form;
mod good;
pub mod laws;
mod leading;
mod outcome;
mod reading;
mod run;
mod site;
mod table;
mod targets;

pub use fault::{FormFault, SiteFault};
pub use form::{Called, Form, Target, Way};
pub use good::is_good;
pub use rt_link::Place;
pub use site::form_at;
