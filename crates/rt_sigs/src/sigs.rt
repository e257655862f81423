// Signatures by name.
ghost use Rattle.std.specs.Prelude.{◌≡◌, [], ◌∷◌, ◌++◌, MatchOption, OnOk, option_copied};
ghost use Rattle.rt_sigs.specs.Signatures.{HasNamed, HasScheme, args_of, prototype_of, returns_of, signature_of};

use crate::prototype::Prototype;
use indexmap::IndexMap;
use rt_base::Memory;
use rt_scheme::Scheme;
use std::alloc::Global;
use std::marker::Model;

/// What is said of functions, of each by its name, which contracts see as the list of the pairs.
#[derive(Drop)]
pub struct Sigs {
    prototypes: IndexMap<Vec<u8>, Prototype>,
}

impl Model for Sigs {
    ghost use Rattle.std.specs.Prelude.{List, map};
    ghost use Rattle.rt_sigs.specs.Signatures.{Signature};

    ghost Value = { List Signature };

    ghost view = { λ s. map (λ e. (e.0.items, e.1)) s.prototypes.entries };
}

impl Sigs {
    /// No signatures. It takes no memory, and keeps the allocator.
    pub fn empty(alloc: Global) -> Sigs
        ensures { result ≡ [] }
    {
        Sigs {
            prototypes: IndexMap::new(alloc),
        }
    }

    // What is said of the function of this name, if there is a signature of it.
    fn prototype(&self, name: &[u8]) -> Option<&Prototype>
        ensures { option_copied result ≡ prototype_of self.now name.now }
    {
        // Without signatures no name is looked at: it may be long.
        if self.prototypes.is_empty() {
            return None;
        }
        self.prototypes.get(name)
    }

    /// The scheme of the function of this name, if there is one. It takes no memory.
    pub fn find(&self, name: &[u8]) -> Option<&Scheme>
        ensures found { MatchOption result (HasNamed self.now name.now → ⊥) (λ scheme. HasScheme self.now name.now scheme.now) }
        ensures first { option_copied result ≡ signature_of self.now name.now }
    {
        match self.prototype(name) {
            Some(prototype) => Some(&prototype.scheme),
            None => None,
        }
    }

    /// Whether the function of this name returns, as far as is known: not where its signature has the line `noreturn`. It
    /// takes no memory.
    pub fn returns(&self, name: &[u8]) -> bool
        ensures { result ≡ returns_of self.now name.now }
    {
        match self.prototype(name) {
            Some(prototype) => prototype.returns,
            None => true,
        }
    }

    /// How many registers the function of this name takes, from a0 on, if its signature has a line `args N`. It takes no
    /// memory.
    pub fn args(&self, name: &[u8]) -> Option<u8>
        ensures { result ≡ args_of self.now name.now }
    {
        match self.prototype(name) {
            Some(prototype) => prototype.args,
            None => None,
        }
    }

    // Adds a signature of a new name at the end.
    pub(crate) fn push(&mut self, name: Vec<u8>, prototype: Prototype) -> Result<(), Memory>
        requires { HasNamed self.old name.items → ⊥ }
        ensures { OnOk result (self.new ≡ self.old ++ (name.items, prototype) ∷ []) }
    {
        self.prototypes.insert(name, prototype)?;
        Ok(())
    }
}
