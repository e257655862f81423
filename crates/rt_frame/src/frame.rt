// Frames.
ghost use Rattle.std.specs.Prelude.{◌≡◌, ◌<◌, ℕ, ℤ, All, Contains, IfOk};
ghost use Rattle.rt_flow.specs.declared.def.Def.TheVariants.{At};
ghost use Rattle.rt_flow.specs.Reaching.{sites_of};
ghost use Rattle.rt_flow.specs.Sources.{defs_in};
ghost use Rattle.rt_body.specs.Told.{IsDefWithin};
ghost use Rattle.rt_frame.specs.Frames.{AreAscending};

use crate::saved::saved;
use crate::spot::{Spot, spot_in};
use crate::stored::stored;
use crate::taken::taken;
use rt_base::{Memory, Sequence};
use rt_body::Body;
use rt_flow::{Def, Reach, reaching};
use rt_liveness::Call;
use std::alloc::Global;

/// The frame of a procedure.
#[derive(Drop)]
pub struct Frame {
    // The offsets at which objects begin, ascending.
    pub(crate) taken: Sequence<i32>,
    // The offsets of the words in which registers are saved, ascending.
    pub(crate) saved: Sequence<i32>,
    // Which definitions of the other bytes reach each site.
    pub(crate) reach: Reach,
    ghost taken_ascending: { AreAscending taken },
    ghost saved_ascending: { AreAscending saved },
    ghost within: { (site d : ℕ) (loc : ℤ) → site < sites_of reach → Contains (defs_in reach site loc) (At d) →
        d < sites_of reach },
}

impl Frame {
    ghost use Rattle.rt_body.specs.Told.{reading_of, sites_in};
    ghost use Rattle.rt_liveness.specs.Calls.{HasCallRegister};
    ghost use Rattle.rt_frame.specs.Frames.{IsFrameOf, spot_at};
    ghost use Rattle.rt_frame.specs.Told.{layout_of, frame_of, frame_sites};

    /// The frame of a procedure, with what is known of the calls of each of its sites. The error is out of memory.
    ///
    /// Time and memory are those of [`rt_flow::reaching`], and besides linear in sites, in calls and in the definitions that reach
    /// returns and uses of several values, but for logarithms.
    pub fn of(alloc: Global, body: &Body, calls: &[Sequence<Call>]) -> Result<Frame, Memory>
        requires registers { All (All HasCallRegister) calls.now }
        ensures of { IfOk result (λ frame. IsFrameOf (reading_of body.now) calls.now (frame_of frame)) }
        ensures sites { IfOk result (λ frame. frame_sites frame ≡ sites_in body.now) }
    {
        let taken = taken(alloc, body, calls)?.ascending(alloc)?;
        let saved = saved(alloc, body)?.ascending(alloc)?;
        let graph = stored(alloc, body, taken.items(), saved.items())?;
        let reach = reaching(alloc, &graph)?;
        let _sites = reach.sites();
        Ok(Frame {
            taken,
            saved,
            reach,
        })
    }

    /// How many sites its procedure has.
    pub fn sites(&self) -> u32
        ensures { result ≡ frame_sites self.now }
    {
        self.reach.sites()
    }

    /// Where an access at an offset goes. It takes no memory, and time logarithmic in objects and saved registers.
    pub fn spot(&self, k: i32) -> Spot
        ensures { result ≡ spot_at (layout_of self.now) k }
    {
        spot_in(self.taken.items(), self.saved.items(), k)
    }

    /// The definitions of a byte of the frame that reach a site: Entry first, then sites ascending. The byte at offset k is the
    /// location 4,294,967,296 + k. It takes no memory.
    pub fn reaching(&self, site: u32, loc: i64) -> &[Def]
        requires { site < frame_sites self.now }
        ensures value { result.now ≡ (frame_of self.now).reaching site loc }
        ensures within { All (IsDefWithin (frame_sites self.now)) result.now }
    {
        self.reach.defs(site, loc)
    }
}
