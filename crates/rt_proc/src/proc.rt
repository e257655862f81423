// Procedures.
use crate::site::Sites;
use rt_base::Sequence;
use rt_control::Place;
use rt_elf::Name;

/// A procedure: where it is entered, its name, which is empty where no function's symbol stands there, and the sites of
/// its body, by their places.
#[derive(Drop)]
pub struct Proc {
    pub entry: Place,
    pub name: Name,
    pub sites: Sites,
}

/// Procedures, by their entries. The number of a procedure is its index.
pub type Procs = Sequence<Proc>;
