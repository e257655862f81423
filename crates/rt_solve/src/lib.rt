//! From the lines of all groups of procedures to their schemes, group after group by a plan. It shows what works on one group again.
#![tactic(auto)]

mod all;
mod driver;
mod group;
pub mod laws;
mod run;
mod schedule;
mod steps;
mod turn;

pub use all::solve_all;
pub use group::solve_group;
pub use rt_plan::{Answer, Event};
pub use rt_settle::{GroupSchemes, settle};
pub use run::Run;
pub use schedule::Schedule;
pub use steps::Steps;
