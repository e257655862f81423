// What a header lists: its types, and its functions.
ghost use Rattle.std.specs.Prelude.{◌≡◌, ◌↔◌, ◌≤◌, ◌^◌, ◌++◌, ◌∷◌, [], All, IsTrue, Contains, IfOk, OnOk};
ghost use Rattle.std.specs.Ordering.{nat_cmp};
ghost use Rattle.std.specs.Cmp.Lexicographic.{slice_cmp};
ghost use Rattle.std.specs.declared.cmp.Ordering.TheVariants.{Less};
ghost use Rattle.rt_cdecl.specs.Types.{IsTypedef};
ghost use Rattle.rt_cdecl.specs.Rows.{typedef_text};
ghost use Rattle.rt_cdecl.specs.GoodDecls.{function_numbers};
ghost use Rattle.rt_cdecl.specs.Inside.Drafts.{LastBefore, least_after};
ghost use Rattle.rt_cdecl.specs.Inside.Endings.{HasInt};

use crate::declarations::{CFunction, CFunctions, CType, CTypes};
use crate::kinds::Kinds;
use crate::printing::push_typedef_text;
use rt_base::Memory;
use std::alloc::Global;
use std::marker::Model;

// Types in the order of their lines, which contracts see as the list of them.
#[derive(Drop)]
pub struct Typedefs {
    list: CTypes,
    set: Kinds,
}

impl Model for Typedefs {
    ghost use Rattle.std.specs.Prelude.{List, ◌↔◌, Contains};
    ghost use Rattle.rt_cdecl.specs.declared.declarations.CType.{CType};

    ghost Value = { List CType };

    ghost view = { λ t. t.list };

    ghost invariant = { λ t. (kind : CType) → Contains t.set kind ↔ Contains t.list kind };
}

// The text of the line of a type, without the line's end.
fn typedef_line(alloc: Global, kind: &CType) -> Result<Vec<u8>, Memory>
    ensures { IfOk result (λ text. text.items ≡ typedef_text kind.now) }
{
    let mut text = Vec::new(alloc);
    push_typedef_text(kind, &mut text)?;
    Ok(text)
}

// Whether the line of a type comes before that of another.
fn comes_before(alloc: Global, first: &CType, second: &CType) -> Result<bool, Memory>
    ensures { IfOk result (λ yes. IsTrue yes ↔ (slice_cmp nat_cmp (typedef_text first.now) (typedef_text second.now) ≡ Less)) }
{
    let before = typedef_line(alloc, first)?;
    let after = typedef_line(alloc, second)?;
    Ok(before.cmp(&after).is_lt())
}

// Whether the line of a type comes after those of others.
fn is_last(alloc: Global, kinds: &[CType], kind: &CType) -> Result<bool, Memory>
    ensures { IfOk result (λ yes. IsTrue yes ↔ LastBefore kinds.now kind.now) }
{
    match kinds {
        [] => Ok(true),
        [.., last] => {
            let yes = comes_before(alloc, last, kind)?;
            Ok(yes)
        }
    }
}

impl Typedefs {
    // No types. It takes no memory, and keeps the allocator.
    pub fn new(alloc: Global) -> Typedefs
        ensures { result ≡ [] }
    {
        Typedefs {
            list: CTypes::new(alloc),
            set: Kinds::new(alloc),
        }
    }

    // The allocator that the list keeps.
    pub fn allocator(&self) -> Global {
        self.list.allocator()
    }

    // Whether the type is listed.
    pub fn has(&self, kind: &CType) -> bool
        ensures { IsTrue result ↔ Contains self.now kind.now }
    {
        self.set.has(kind)
    }

    // Whether a scalar of 32 bits is listed.
    pub fn has_ints(&self) -> bool
        ensures { IsTrue result ↔ HasInt self.now }
    {
        self.set.has_ints()
    }

    // Whether the line of a type comes after those of these.
    pub fn may_follow(&self, kind: &CType) -> Result<bool, Memory>
        ensures { IfOk result (λ may. IsTrue may ↔ LastBefore self.now kind.now) }
    {
        is_last(self.allocator(), self.list.items(), kind)
    }

    // These types and one more.
    pub fn with(self, kind: CType) -> Result<Typedefs, Memory>
        requires { IsTypedef kind }
        ensures { IfOk result (λ more. more ≡ self ++ kind ∷ []) }
    {
        let Typedefs { mut list, mut set } = self;
        set.add(list.allocator(), &kind)?;
        list.push(kind)?;
        Ok(Typedefs { list, set })
    }

    // The types as a list, without memory.
    pub fn into_list(self) -> CTypes
        ensures { result ≡ self }
    {
        self.list
    }
}

// Functions whose numbers rise, which contracts see as the list of them.
#[derive(Drop)]
pub struct AscendingFunctions {
    list: CFunctions,
    least: u64,
}

impl Model for AscendingFunctions {
    ghost use Rattle.std.specs.Prelude.{List, ◌≡◌, ◌≤◌, ◌^◌};
    ghost use Rattle.rt_cdecl.specs.declared.declarations.CFunction.{CFunction};
    ghost use Rattle.rt_cdecl.specs.GoodDecls.{function_numbers};
    ghost use Rattle.rt_cdecl.specs.Inside.Drafts.{least_after};

    ghost Value = { List CFunction };

    ghost view = { λ f. f.list };

    ghost invariant = { λ f. (f.least ≡ least_after 0 (function_numbers f.list)) × (f.least ≤ 2 ^ 32) };
}

impl AscendingFunctions {
    // No functions. It takes no memory, and keeps the allocator.
    pub fn new(alloc: Global) -> AscendingFunctions
        ensures { result ≡ [] }
    {
        AscendingFunctions {
            list: CFunctions::new(alloc),
            least: 0,
        }
    }

    // Whether there are none.
    pub fn is_empty(&self) -> bool
        ensures { IsTrue result ↔ (self.now ≡ []) }
    {
        self.list.items().is_empty()
    }

    // The least number that may follow those of all these, which rise.
    pub fn least(&self) -> u64
        ensures least { result ≡ least_after 0 (function_numbers self.now) }
        ensures small { result ≤ 2 ^ 32 }
    {
        self.least
    }

    // Whether the number is greater than those of all these, which rise.
    pub fn may_follow(&self, number: u32) -> bool
        ensures { IsTrue result ↔ (least_after 0 (function_numbers self.now) ≤ number) }
    {
        self.least <= u64::from(number)
    }

    // Adds a function.
    pub fn push(&mut self, function: CFunction) -> Result<(), Memory>
        ensures { OnOk result (self.new ≡ self.old ++ function ∷ []) }
    {
        let least = u64::from(function.number) + 1;
        self.list.push(function)?;
        self.least = least;
        Ok(())
    }

    // The functions as a list, without memory.
    pub fn into_list(self) -> CFunctions
        ensures { result ≡ self }
    {
        self.list
    }
}
