// What is known of an object's procedures.
ghost use Rattle.std.specs.Prelude.{◌≡◌, ◌<◌, ◌^◌, length, map};
ghost use Rattle.rt_body.specs.Told.{sites_in};
ghost use Rattle.rt_frame.specs.Told.{frame_sites};
ghost use Rattle.rt_table.specs.Inside.Registers.{HaveRegisters, HaveRegisters-prop};
ghost use Rattle.rt_table.specs.Inside.Words.{AreStackWords};

use rt_base::Sequence;
use rt_body::Body;
use rt_elf::Object;
use rt_frame::Frame;
use rt_liveness::Calls;
use rt_proc::Procs;
use rt_sigs::Sigs;

/// What is known of an object's procedures: of each, what its registers hold, the calls of its sites, and its frame.
#[derive(Drop)]
pub struct Facts<'a> {
    pub(crate) object: &'a Object,
    pub(crate) procs: &'a Procs,
    pub(crate) sigs: &'a Sigs,
    pub(crate) bodies: Vec<Body>,
    pub(crate) calls: Sequence<Calls>,
    pub(crate) frames: Vec<Framed>,
    ghost bodies_each: { length bodies.items ≡ length frames.items },
    ghost calls_each: { length calls ≡ length frames.items },
    ghost of_one: { map (λ framed. frame_sites framed.frame) frames.items ≡ map sites_in bodies.items },
    ghost registers: { HaveRegisters calls } by { HaveRegisters-prop calls },
    ghost few: { length procs.now < 2 ^ 32 },
}

// The frame of a procedure, and the offsets of the words of the stack that it takes as arguments, ascending.
#[derive(Drop)]
pub(crate) struct Framed {
    pub(crate) frame: Frame,
    pub(crate) words: Sequence<u32>,
    ghost are_words: { AreStackWords words },
}

impl<'a> Facts<'a> {
    /// The procedures. There are fewer than 2^32.
    pub fn procs(&self) -> &'a Procs
        ensures procs { result.now ≡ self.now.procs.now }
        ensures few { length result.now < 2 ^ 32 }
    {
        self.procs
    }
}
