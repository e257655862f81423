// Named variables.
ghost use Rattle.std.specs.Prelude.{◌≡◌, ℕ, ◌<◌, List, [], ◌∷◌, length, take, slice_get};
ghost use Rattle.std.specs.Prelude.{slice_index_or, Contains, Some, IfOk, OnOk, OnErr, MatchOption, flat_map, fold};
ghost use Rattle.indexmap.specs.IndexSet.{insert_key};
ghost use Rattle.rt_lines.specs.declared.label.Label.{Label};
ghost use Rattle.rt_lines.specs.Equality.{variable_eq};
ghost use Rattle.rt_rules.specs.Rules.{extended};
ghost use Rattle.rt_named.specs.Naming.{named, prefixes, sides_of, with_prefixes};

use crate::origin::Origin;
use indexmap::IndexSet;
use rt_base::Memory;
use rt_lines::{Dtv, Line};
use std::alloc::{AllocError, Global};
use std::marker::Model;

/// A list of variables, each once and after those that it begins with, which contracts see as that list. It takes memory
/// linear in the letters that the variables do not share.
#[derive(Drop)]
pub struct Named {
    origins: IndexSet<Origin>,
}

impl Model for Named {
    ghost use Rattle.std.specs.Prelude.{List};
    ghost use Rattle.rt_lines.specs.declared.variable.Dtv.{Dtv as Variable};
    ghost use Rattle.rt_named.specs.Origins.{variables, AreMade};

    ghost Value = { List Variable };

    ghost view = { λ n. variables n.origins.keys };

    ghost invariant = { λ n. AreMade n.origins.keys (variables n.origins.keys) };
}

impl Named {
    ghost use Rattle.rt_named.specs.Origins.{made, no_variable, IsBelow};

    /// No variables. It takes no memory, and keeps the allocator.
    pub fn new(alloc: Global) -> Named
        ensures { result ≡ [] }
    {
        Named {
            origins: IndexSet::new(alloc),
        }
    }

    /// The variables that the lines name, in order, and then more variables, each after those that it begins with, and
    /// each once. The error is out of memory.
    pub fn of(alloc: Global, lines: &[Line], extra: &[Dtv]) -> Result<Named, Memory>
        ensures { IfOk result (λ n. n ≡ named lines.now extra.now) }
    {
        let mut named = Named::new(alloc);
        for line in lines {
            named.enter_line(line)?;
        }
        for x in extra {
            named.enter(x)?;
        }
        Ok(named)
    }

    // Adds the sides of a line.
    fn enter_line(&mut self, line: &Line) -> Result<(), Memory>
        ensures { OnOk result (self.new ≡ with_prefixes self.old (sides_of line.now)) }
    {
        match line {
            Line::Var(x) | Line::Low(_, x) | Line::Up(x, _) => {
                self.enter(x)?;
            }
            Line::Same(x, y) | Line::Sub(x, y) => {
                self.enter(x)?;
                self.enter(y)?;
            }
        }
        Ok(())
    }

    /// Adds a variable, after those that it begins with, and gives its number. Those that are there already keep their
    /// numbers. When out of memory, some of those that it begins with may have been added, shortest first.
    pub fn enter(&mut self, x: &Dtv) -> Result<u32, Memory>
        ensures entered { OnOk result (self.new ≡ with_prefixes self.old (x.now ∷ [])) }
        ensures number { IfOk result (λ i. slice_get self.new i ≡ Some x.now) }
        ensures some { OnErr result ((k : ℕ) × (self.new ≡ fold (insert_key variable_eq) self.old (take k (prefixes x.now)))) }
    {
        let mut number = self.enter_origin(Origin::Bare(x.base))?;
        for label in x.word.items() {
            number = self.enter_origin(Origin::Longer(number, *label))?;
        }
        Ok(number)
    }

    // Adds the variable of an origin, and gives its number.
    fn enter_origin(&mut self, origin: Origin) -> Result<u32, Memory>
        requires { IsBelow origin (length self.old) }
        ensures entered { OnOk result (self.new ≡ insert_key variable_eq self.old (made self.old origin)) }
        ensures number { IfOk result (λ i. slice_get self.new i ≡ Some (made self.old origin)) }
        ensures same { OnErr result (self.new ≡ self.old) }
    {
        if self.origins.len() >= u32::MAX as usize {
            return Err(AllocError);
        }
        let (number, _) = self.origins.insert_full(origin)?;
        Ok(number as u32)
    }

    /// The number of a variable, or `None` where it isn't in the list. It is found in time linear in the word.
    pub fn index(&self, x: &Dtv) -> Option<u32>
        ensures { MatchOption result (Contains self.now x.now → ⊥) (λ i. slice_get self.now i ≡ Some x.now) }
    {
        let Some(mut number) = self.find(Origin::Bare(x.base)) else {
            return None;
        };
        for label in x.word.items() {
            let Some(longer) = self.find(Origin::Longer(number, *label)) else {
                return None;
            };
            number = longer;
        }
        Some(number)
    }

    /// The number of a variable of the list. It is found in time linear in the word.
    pub fn number(&self, x: &Dtv) -> u32
        requires { Contains self.now x.now }
        ensures { slice_get self.now result ≡ Some x.now }
    {
        match self.index(x) {
            Some(number) => number,
            None => unreachable!(),
        }
    }

    // The number of the variable of an origin. Without it there is none that begins with it.
    fn find(&self, origin: Origin) -> Option<u32>
        requires { IsBelow origin (length self.now) }
        ensures { MatchOption result ((w : List Label) → Contains self.now (extended (made self.now origin) w) → ⊥)
            (λ i. slice_get self.now i ≡ Some (made self.now origin)) }
    {
        match self.origins.get_index_of(&origin) {
            Some(number) => Some(number as u32),
            None => None,
        }
    }

    /// How many variables there are, fewer than 2^32.
    pub fn len(&self) -> usize
        ensures count { result ≡ length self.now }
        ensures few { result < 4294967296 }
    {
        self.origins.len()
    }

    /// How a variable is made of an earlier one.
    pub fn origin(&self, number: u32) -> Origin
        requires { number < length self.now }
        ensures made { slice_index_or self.now number no_variable ≡ made self.now result }
        ensures below { IsBelow result number }
    {
        match self.origins.get_index(number as usize) {
            Some(origin) => *origin,
            None => unreachable!(),
        }
    }
}
