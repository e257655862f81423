//! The procedures of an object and their bodies: which sites each has, how control goes from site to site, whom it
//! calls, and where it goes on in another procedure.
#![tactic(auto)]

mod bodies;
mod ends;
mod entries;
mod fault;
mod finder;
mod found;
mod functions;
pub mod laws;
mod look;
mod names;
mod numbers;
mod places;
mod proc;
mod reach;
mod site;
mod sites;
mod steps;

pub use fault::CodeFault;
pub use finder::find;
pub use proc::{Proc, Procs};
pub use rt_control::Place;
pub use site::{Callee, Callees, Kind, Places, Site, Sites};
