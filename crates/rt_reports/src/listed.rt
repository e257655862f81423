// The globals that a report lists.
ghost use Rattle.std.specs.Prelude.{◌≡◌, ◌↔◌, ◌≤◌, ◌++◌, ◌∷◌, [], All, IsTrue, Contains, OnOk};
ghost use Rattle.rt_reports.specs.GoodReports.{numbers_of};
ghost use Rattle.rt_reports.specs.Inside.Drafts.{IsListing, least_after};

use crate::numbers::Numbers;
use rt_base::{Bytes, Memory};
use rt_scheme::Globals;
use std::alloc::Global;

// Globals, and their numbers.
#[derive(Drop)]
pub struct ListedGlobals {
    // The globals in order.
    pub globals: Globals,
    // Their numbers.
    pub numbers: Numbers,
    // The least number that is greater than each of them.
    pub least: u64,
}

impl ListedGlobals {
    // No globals. It takes no memory, and keeps the allocator.
    pub fn new(alloc: Global) -> ListedGlobals
        ensures none { result.globals ≡ [] }
        ensures kept { IsListing result.globals result.numbers result.least }
    {
        ListedGlobals {
            globals: Globals::new(alloc),
            numbers: Numbers::new(alloc),
            least: 0,
        }
    }

    // Whether the global of the number is among these.
    pub fn has(&self, number: u32) -> bool
        requires { IsListing self.now.globals self.now.numbers self.now.least }
        ensures { IsTrue result ↔ Contains (numbers_of self.now.globals) number }
    {
        self.numbers.has(number)
    }

    // Whether the number is greater than those of all these, which rise.
    pub fn may_follow(&self, number: u32) -> bool
        requires { IsListing self.now.globals self.now.numbers self.now.least }
        ensures { IsTrue result ↔ (least_after 0 (numbers_of self.now.globals) ≤ number) }
    {
        self.least <= u64::from(number)
    }

    // Adds a global.
    pub fn add(&mut self, number: u32, name: Bytes) -> Result<(), Memory>
        requires { IsListing self.old.globals self.old.numbers self.old.least }
        ensures more { OnOk result (self.new.globals ≡ self.old.globals ++ (number, name) ∷ []) }
        ensures kept { OnOk result (IsListing self.new.globals self.new.numbers self.new.least) }
    {
        self.globals.push((number, name))?;
        self.numbers.add(number)?;
        self.least = u64::from(number) + 1;
        Ok(())
    }

    // Whether all of these globals are among the numbers.
    pub fn are_among(&self, named: &Numbers) -> bool
        ensures { IsTrue result ↔ All (Contains named.now) (numbers_of self.now.globals) }
    {
        for (number, _) in self.globals.items() {
            if !named.has(*number) {
                return false;
            }
        }
        true
    }

    // The globals as a list, without memory.
    pub fn into_globals(self) -> Globals
        ensures { result ≡ self.globals }
    {
        self.globals
    }
}
