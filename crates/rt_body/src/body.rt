// Bodies.
ghost use Rattle.std.specs.Prelude.{◌≡◌, ◌<◌, ◌^◌, ℕ, pos, [], length, All, Contains, IfOk};
ghost use Rattle.rt_flow.specs.declared.def.Def.TheVariants.{At};
ghost use Rattle.rt_flow.specs.Bodies.{IsBody};
ghost use Rattle.rt_flow.specs.Reaching.{sites_of as reach_sites};
ghost use Rattle.rt_flow.specs.Sources.{defs_in};
ghost use Rattle.rt_track.specs.Told.{sites_of as value_sites};
ghost use Rattle.rt_body.specs.Readings.{flow_body};
ghost use Rattle.rt_body.specs.Registers.{HasRegisters, HaveRegisters-prop};

use crate::action::Action;
use crate::flow::{graph_of, reach_of};
use crate::operations::operations;
use crate::parts::parts;
use crate::symbols::Symbols;
use rt_base::{Memory, Sequence};
use rt_elf::Object;
use rt_flow::{Def, Graph, Reach};
use rt_link::Links;
use rt_proc::Proc;
use rt_track::{Value, Values, track};
use std::alloc::Global;

/// The body of a procedure: what its sites do, in the order of their places, and what their registers hold.
#[derive(Drop)]
pub struct Body {
    pub(crate) actions: Sequence<Action>,
    pub(crate) entry: u32,
    pub(crate) edges: Sequence<(u32, u32)>,
    pub(crate) reach: Reach,
    pub(crate) values: Values,
    ghost is_body: { IsBody (flow_body actions entry edges) },
    ghost reached: { reach_sites reach ≡ length actions },
    ghost within: { (site register d : ℕ) → site < length actions
        → Contains (defs_in reach site (pos register)) (At d) → d < length actions },
    ghost valued: { value_sites values ≡ length actions },
    ghost named: { All HasRegisters actions } by { HaveRegisters-prop actions },
}

impl Body {
    ghost use Rattle.rt_link.specs.Links.{AreLinksOf};
    ghost use Rattle.rt_body.specs.Lowest.{AreSymbolsOf};
    ghost use Rattle.rt_body.specs.Readable.{IsReadable};
    ghost use Rattle.rt_body.specs.Right.{IsReading};
    ghost use Rattle.rt_body.specs.Told.{reading_of, sites_in, IsDefWithin};

    /// The body of a procedure of an object, by the object's links and symbols. The error is out of memory; 2^32 sites or more
    /// are more than there is memory for.
    ///
    /// Time and memory are those of [`rt_flow::reaching`] and [`rt_track::track`], and besides linear in sites and edges, but for
    /// logarithms.
    pub fn read(
        alloc: Global,
        object: &Object,
        links: &Links,
        symbols: &Symbols,
        proc: &Proc,
    ) -> Result<Body, Memory>
        requires links { AreLinksOf object.now links.now }
        requires symbols { AreSymbolsOf object.now symbols.now }
        requires readable { IsReadable proc.now }
        ensures { IfOk result (λ body. IsReading object.now proc.now (reading_of body)) }
    {
        let (actions, entry, edges) = parts(alloc, object, links, symbols, proc)?;
        let reach = reach_of(alloc, actions.items(), entry, edges.items())?;
        let ops = operations(alloc, actions.items())?;
        let values = track(alloc, &reach, &ops)?;
        Ok(Body {
            actions,
            entry,
            edges,
            reach,
            values,
        })
    }

    /// What the sites do, in the order of their places.
    pub fn actions(&self) -> &[Action]
        ensures actions { result.now ≡ (reading_of self.now).actions }
        ensures few { length result.now < 2 ^ 32 }
        ensures sites { length result.now ≡ sites_in self.now }
        ensures body { IsBody (reading_of self.now).body }
        ensures registers { All HasRegisters result.now }
    {
        self.actions.items()
    }

    /// What a register holds where a site uses it. It takes no memory.
    pub fn value_at(&self, site: u32, register: u8) -> Value
        requires site { site < sites_in self.now }
        requires register { register < 32 }
        ensures { result ≡ (reading_of self.now).value_at site register }
    {
        self.values.at(site, register)
    }

    /// What the definition of a register by a site gives. It takes no memory.
    pub fn value_of(&self, site: u32, register: u8) -> Value
        requires site { site < sites_in self.now }
        requires register { register < 32 }
        ensures { result ≡ (reading_of self.now).value_of site register }
    {
        self.values.of(site, register)
    }

    /// The definitions of a register that reach a site: Entry first, then sites ascending. It takes no memory.
    pub fn reaching(&self, site: u32, register: u8) -> &[Def]
        requires site { site < sites_in self.now }
        ensures value { result.now ≡ (reading_of self.now).reaching site register }
        ensures within { All (IsDefWithin (sites_in self.now)) result.now }
    {
        self.reach.defs(site, i64::from(register))
    }

    /// The sites and edges of the body as a graph, without definitions. The error is out of memory.
    pub fn graph(&self, alloc: Global) -> Result<Graph, Memory>
        ensures { IfOk result (λ graph. graph ≡ record (reading_of self.now).body { defs = [] }) }
    {
        graph_of(
            alloc,
            self.actions.len() as u32,
            self.entry,
            self.edges.items(),
        )
    }
}
