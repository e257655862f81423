// Sets of types that have lines of their own.
ghost use Rattle.std.specs.Prelude.{◌≡◌, ◌↔◌, ◌<◌, ◌^◌, [], List, ℕ, All, IsTrue, Contains, OnOk, length};
ghost use Rattle.rt_cdecl.specs.declared.declarations.CType.TheVariants.{Scalar};
ghost use Rattle.rt_cdecl.specs.Types.{IsType, IsWidth};
ghost use Rattle.rt_cdecl.specs.GoodDecls.{IsArgument, arg_types, named_types};
ghost use Rattle.rt_cdecl.specs.Inside.Drafts.{Adds, IsAdded};
ghost use Rattle.rt_cdecl.specs.Inside.Endings.{AreApart, AreCounted, Drops, HasInt, IsDropped, IsZero};
ghost use Rattle.std.specs.List.{flat_map};

use crate::declarations::CType;
use rt_base::Memory;
use rt_lines::Loc;
use std::alloc::Global;
use std::collections::BTreeSet;
use std::marker::Model;

// Names, each once, which contracts see as a list.
#[derive(Drop)]
pub struct NameSet {
    set: BTreeSet<Vec<u8>>,
}

impl Model for NameSet {
    ghost use Rattle.std.specs.Prelude.{List, ℕ, map};
    ghost use Rattle.rt_cdecl.specs.Inside.Endings.{AreApart};

    ghost Value = { List (List ℕ) };

    ghost view = { λ s. map (λ v. v.items) s.set.keys };

    ghost invariant = { λ s. AreApart (map (λ v. v.items) s.set.keys) };
}

impl NameSet {
    // No names. It takes no memory, and keeps the allocator.
    pub fn new(alloc: Global) -> NameSet
        ensures { result ≡ [] }
    {
        NameSet {
            set: BTreeSet::new(alloc),
        }
    }

    // Whether the name is among these.
    pub fn has(&self, name: &[u8]) -> bool
        ensures { IsTrue result ↔ Contains self.now name.now }
    {
        self.set.contains(name)
    }

    // Adds a name, if it isn't there.
    pub fn add(&mut self, alloc: Global, name: &[u8]) -> Result<(), Memory>
        ensures { OnOk result (IsAdded self.old name.now self.new) }
    {
        if self.has(name) {
            return Ok(());
        }
        let name = name.to_vec(alloc)?;
        self.set.insert(name)?;
        Ok(())
    }

    // Takes a name out, if it is there.
    pub fn remove(&mut self, name: &[u8])
        ensures { IsDropped self.old name.now self.new }
    {
        self.set.remove(name);
    }

    // How many there are.
    pub fn len(&self) -> u64
        ensures len { result ≡ length self.now }
        ensures small { result < 2 ^ 63 }
        ensures apart { AreApart self.now }
    {
        self.set.len() as u64
    }
}

// How many types there are of each width.
#[derive(Clone, Copy)]
pub struct Counts {
    // Whether `Unused` is one of them.
    pub unused: bool,
    // Scalars of 8 bits.
    pub chars: u64,
    // Scalars of 16 bits.
    pub shorts: u64,
    // Scalars of 32 bits.
    pub ints: u64,
}

impl Counts {
    // Whether there are none.
    fn is_zero(&self) -> bool
        ensures { IsTrue result ↔ IsZero self.now }
    {
        !self.unused && self.chars == 0 && self.shorts == 0 && self.ints == 0
    }
}

// Types that have lines of their own, each once, which contracts see as a list.
#[derive(Drop)]
pub struct Kinds {
    unused: bool,
    chars: NameSet,
    shorts: NameSet,
    ints: NameSet,
}

impl Model for Kinds {
    ghost use Rattle.std.specs.Prelude.{List};
    ghost use Rattle.rt_cdecl.specs.declared.declarations.CType.{CType};
    ghost use Rattle.rt_cdecl.specs.Inside.Drafts.{kinds_of};

    ghost Value = { List CType };

    ghost view = { λ k. kinds_of k.unused k.chars k.shorts k.ints };
}

impl Kinds {
    // No types. It takes no memory, and keeps the allocator.
    pub fn new(alloc: Global) -> Kinds
        ensures { result ≡ [] }
    {
        Kinds {
            unused: false,
            chars: NameSet::new(alloc),
            shorts: NameSet::new(alloc),
            ints: NameSet::new(alloc),
        }
    }

    // Whether the type is among these.
    pub fn has(&self, kind: &CType) -> bool
        ensures { IsTrue result ↔ Contains self.now kind.now }
    {
        let unused = self.unused;
        match kind {
            CType::Unused => unused,
            CType::Scalar(name, bits) => self.has_scalar(name.items(), *bits),
            CType::Pointer(_) => false,
        }
    }

    // Whether the scalar is among these.
    fn has_scalar(&self, name: &[u8], bits: u8) -> bool
        ensures { IsTrue result ↔ Contains self.now (Scalar name.now bits) }
    {
        let (chars, shorts, ints) = (&self.chars, &self.shorts, &self.ints);
        match bits {
            8 => chars.has(name),
            16 => shorts.has(name),
            32 => ints.has(name),
            _ => false,
        }
    }

    // Adds a scalar, if it isn't there.
    fn add_scalar(&mut self, alloc: Global, name: &[u8], bits: u8) -> Result<(), Memory>
        requires { IsWidth bits }
        ensures { OnOk result (IsAdded self.old (Scalar name.now bits) self.new) }
    {
        match bits {
            8 => self.chars.add(alloc, name),
            16 => self.shorts.add(alloc, name),
            _ => self.ints.add(alloc, name),
        }
    }

    // Adds a type that has a line of its own, if it isn't there.
    pub fn add(&mut self, alloc: Global, kind: &CType) -> Result<(), Memory>
        requires { IsType kind.now }
        ensures { OnOk result (Adds self.old (named_types kind.now) self.new) }
    {
        match kind {
            CType::Unused => {
                self.unused = true;
                Ok(())
            }
            CType::Scalar(name, bits) => self.add_scalar(alloc, name.items(), *bits),
            CType::Pointer(_) => Ok(()),
        }
    }

    // Takes a scalar out, if it is there.
    fn remove_scalar(&mut self, name: &[u8], bits: u8)
        requires { IsWidth bits }
        ensures { IsDropped self.old (Scalar name.now bits) self.new }
    {
        match bits {
            8 => self.chars.remove(name),
            16 => self.shorts.remove(name),
            _ => self.ints.remove(name),
        }
    }

    // Takes a type out, if it is there.
    pub fn remove(&mut self, kind: &CType)
        requires { IsType kind.now }
        ensures { Drops self.old (named_types kind.now) self.new }
    {
        match kind {
            CType::Unused => self.unused = false,
            CType::Scalar(name, bits) => self.remove_scalar(name.items(), *bits),
            CType::Pointer(_) => (),
        }
    }

    // Takes those of arguments out.
    pub fn remove_args(&mut self, args: &[(Loc, CType)])
        requires { All IsArgument args.now }
        ensures { Drops self.old (flat_map named_types (arg_types args.now)) self.new }
    {
        for (_, kind) in args {
            self.remove(kind);
        }
    }

    // How many types there are of each width.
    pub fn counts(&self) -> Counts
        ensures { AreCounted self.now result }
    {
        Counts {
            unused: self.unused,
            chars: self.chars.len(),
            shorts: self.shorts.len(),
            ints: self.ints.len(),
        }
    }

    // Whether a scalar of 32 bits is among these.
    pub fn has_ints(&self) -> bool
        ensures { IsTrue result ↔ HasInt self.now }
    {
        self.ints.len() > 0
    }

    // Whether there are none.
    pub fn is_empty(&self) -> bool
        ensures { IsTrue result ↔ (self.now ≡ []) }
    {
        let counts = self.counts();
        counts.is_zero()
    }
}
