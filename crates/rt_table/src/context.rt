// What the table is read against.
ghost use Rattle.std.specs.Prelude.{◌≡◌, All, map};
ghost use Rattle.rt_body.specs.Told.{sites_in};
ghost use Rattle.rt_liveness.specs.Calls.{HasCallRegister, HaveCallRegisters-prop};
ghost use Rattle.rt_liveness.specs.Told.{program_of};
ghost use Rattle.rt_frame.specs.Told.{frame_sites};
ghost use Rattle.rt_table.specs.Facts.{knowledge_of};
ghost use Rattle.rt_table.specs.Lists.{linked_in};
ghost use Rattle.rt_table.specs.Inside.Parts.{named_results};

use crate::facts::Facts;
use indexmap::IndexSet;
use rt_base::Sequence;
use rt_body::Body;
use rt_frame::Frame;
use rt_lattice::Lattice;
use rt_liveness::Call;
use rt_scheme::Schemes;
use std::alloc::Global;

/// What the calls of the procedures of a group are stated by: what is known of the object's procedures and of functions
/// outside, the numbers of the group's members, and the schemes of other procedures.
#[derive(Clone, Copy)]
pub(crate) struct Outside<'a> {
    pub(crate) facts: &'a Facts<'a>,
    pub(crate) members: &'a IndexSet<u32>,
    pub(crate) schemes: &'a Schemes,
}

/// What the table is read against for one procedure: its number, what is known of its registers and of its frame, the calls of its
/// sites and what they are stated by, of the first call of each site which results the scheme names by which it is stated, and the lattice,
/// which says what the constants of the roles are.
#[derive(Clone, Copy)]
pub(crate) struct Context<'a> {
    pub(crate) alloc: Global,
    pub(crate) procedure: u32,
    pub(crate) body: &'a Body,
    pub(crate) frame: &'a Frame,
    pub(crate) calls: &'a [Sequence<Call>],
    pub(crate) named: &'a [[bool; 2]],
    pub(crate) outside: Outside<'a>,
    pub(crate) lattice: &'a Lattice,
    ghost of_one: { frame_sites frame.now ≡ sites_in body.now },
    ghost registers: { All (All HasCallRegister) calls.now } by { HaveCallRegisters-prop calls.now },
    ghost results: { named.now ≡ map named_results (linked_in
        (program_of outside.facts.now.object.now outside.facts.now.procs.now outside.facts.now.bodies.items outside.facts.now.sigs.now)
        (knowledge_of outside.facts.now.bodies.items outside.facts.now.calls outside.facts.now.frames.items)
        outside.schemes.now outside.members.now.keys calls.now) },
}
