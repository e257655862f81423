// Procedures, as rules are made of them.
ghost use Rattle.std.specs.Prelude.{◌≡◌, length};
ghost use Rattle.rt_body.specs.Told.{sites_in};

use rt_body::Body;
use rt_proc::Site;

// A procedure: its number, its sites, and what is known of their registers.
#[derive(Clone, Copy)]
pub(crate) struct Procedure<'a> {
    pub(crate) number: u32,
    pub(crate) sites: &'a [Site],
    pub(crate) body: &'a Body,
    pub(crate) ghost each: { length sites.now ≡ sites_in body.now },
}
