// The first relocation with an effect at each place.
ghost use Rattle.std.specs.Prelude.{◌≡◌, Option, None, OnOk, if◌then◌else◌};
ghost use Rattle.rt_link.specs.Effects.{is_place};
ghost use Rattle.rt_link.specs.Kinds.{kind_of};
ghost use Rattle.rt_link.specs.Links.{head_in, link_held, low_in, meaning_in};

use crate::kind::{Kind, is_pcrel_high, kind_of};
use crate::link::Link;
use crate::place::Place;
use rt_elf::Reloc;
use std::alloc::{AllocError, Global};
use std::collections::BTreeMap;

// A relocation, with the place of its symbol.
#[derive(Clone, Copy)]
pub(crate) struct Head {
    pub(crate) reloc: Reloc,
    pub(crate) own: Place,
}

// Relocations by their places.
#[derive(Drop)]
pub(crate) struct Heads {
    pub(crate) entries: BTreeMap<Place, Head>,
}

impl Heads {
    pub(crate) fn new(alloc: Global) -> Heads
        ensures { (place : Place) → head_in result place ≡ None }
    {
        Heads {
            entries: BTreeMap::new(alloc),
        }
    }

    pub(crate) fn get(&self, place: Place) -> Option<Head>
        ensures { result ≡ head_in self.now place }
    {
        self.entries.get(&place).copied()
    }

    pub(crate) fn insert(&mut self, place: Place, head: Head) -> Result<(), AllocError>
        ensures { OnOk result ((q : Place) → head_in self.new q ≡ (if is_place place q then Option.Some head else head_in self.old q)) }
    {
        self.entries.insert(place, head)?;
        Ok(())
    }

    // What the low bits are where a PCREL_HI20 is held for a place.
    pub(crate) fn low_at(&self, place: Place) -> Option<Link>
        ensures { result ≡ low_in self.now place }
    {
        let Reloc {
            symbol,
            addend,
            kind,
            ..
        } = self.get(place)?.reloc;
        if !is_pcrel_high(kind_of(kind)) {
            return None;
        }
        Some(Link::Low { symbol, addend })
    }

    // What is held for a place means.
    #[tactic(auto, unfolding(crate::specs::Links::link_held))]
    pub(crate) fn link(&self, place: Place) -> Option<Link>
        ensures { result ≡ link_held self.now place }
    {
        let head = self.get(place)?;
        self.meaning(head)
    }

    // What a relocation means.
    fn meaning(&self, head: Head) -> Option<Link>
        ensures { result ≡ meaning_in self.now (kind_of head.reloc.kind) head }
    {
        let Reloc { symbol, addend, .. } = head.reloc;
        match kind_of(head.reloc.kind)? {
            Kind::Passed => None,
            Kind::Jump => Some(Link::Target { symbol, addend }),
            Kind::Call => Some(Link::Pair { symbol, addend }),
            Kind::PcrelHigh | Kind::High => Some(Link::High { symbol, addend }),
            Kind::Low => Some(Link::Low { symbol, addend }),
            Kind::PcrelLow => self.low_at(head.own),
        }
    }
}
