// Structs, numbered as they are met.
ghost use Rattle.std.specs.Prelude.{◌≡◌, ◌<◌, [], MatchOption, IfOk, OnOk, false, length, slice_index_or};
ghost use Rattle.rt_tree.specs.Trees.{Stand, node_at};
ghost use Rattle.rt_erase.specs.Rows.{is_pointer, scalar_number};
ghost use Rattle.rt_cdecl.specs.Types.{IsPresent, IsType, IsWidth, bits_of};
ghost use Rattle.rt_header.specs.Inside.Built.{HasMore, IsMaking, IsNodeOf, IsTypeOf, tree_of};
ghost use Rattle.rt_header.specs.Inside.Made.{IsNumberOf, IsPointee};
ghost use Rattle.rt_header.specs.Met.{struct_in};

use crate::forest::Forest;
use rt_base::{Bytes, Memory};
use rt_cdecl::CType;
use rt_erase::pointee;
use std::alloc::{AllocError, Global};

// Structs in the order in which they are met, each by a tree and a node that a pointer leads to, and their numbers by
// their classes.
#[derive(Drop)]
pub(crate) struct Making {
    pub(crate) structs: Vec<(usize, u32)>,
    pub(crate) numbers: Vec<Option<u32>>,
}

// What a value of so many bits at a node of a tree points to, where it is a pointer.
fn pointee_at(forest: &Forest, i: usize, bits: u8, node: u32) -> Option<u32>
    requires { IsNodeOf forest.now i node }
    ensures { MatchOption result (is_pointer (tree_of forest.now i) bits node ≡ false)
        (IsPointee (tree_of forest.now i) bits node) }
{
    if bits == 32 {
        pointee(forest.tree(i), node)
    } else {
        None
    }
}

// The type of a scalar of so many bits at a node of a tree.
fn scalar_at(alloc: Global, forest: &Forest, i: usize, bits: u8, node: u32) -> Result<CType, Memory>
    requires node { IsNodeOf forest.now i node }
    requires bits { IsWidth bits }
    ensures is { IfOk result (λ t. t ≡ CType.Scalar (slice_index_or forest.now.names (scalar_number
        forest.now.erased.extremes.top forest.now.erased.extremes.bottom (node_at (tree_of forest.now i) node)) []) bits) }
    ensures good { IfOk result IsType }
{
    let name = forest.scalar_name(i, node).to_vec(alloc)?;
    Ok(CType::Scalar(Bytes::from_vec(name), bits))
}

impl Making {
    // None so far.
    pub(crate) fn new(alloc: Global, forest: &Forest) -> Result<Making, Memory>
        ensures none { IfOk result (λ making. making.structs.items ≡ []) }
        ensures making { IfOk result (λ making. IsMaking forest.now making.structs.items making.numbers.items) }
    {
        let count = forest.count();
        let mut numbers = Vec::with_capacity(alloc, count)?;
        for _ in 0..count {
            numbers.push(None)?;
        }
        Ok(Making {
            structs: Vec::new(alloc),
            numbers,
        })
    }

    // The number of what a pointer to a node of a tree leads to: that of its class, or else the next one.
    fn number_of(&mut self, forest: &Forest, i: usize, node: u32) -> Result<u32, Memory>
        requires making { IsMaking forest.now self.old.structs.items self.old.numbers.items }
        requires node { IsNodeOf forest.now i node }
        ensures making { OnOk result (IsMaking forest.now self.new.structs.items self.new.numbers.items) }
        ensures number { IfOk result (IsNumberOf forest.now self.old.structs.items self.new.structs.items i node) }
    {
        let class = forest.class(i, node);
        if let Some(number) = self.numbers[class] {
            return Ok(number);
        }
        let number = self.structs.len() as u32;
        if number == u32::MAX {
            return Err(AllocError);
        }
        self.structs.push((i, node))?;
        self.numbers[class] = Some(number);
        Ok(number)
    }

    // The type of a value of so many bits at a node of a tree. What it points to gets the next number where its class
    // has none.
    pub(crate) fn type_of(
        &mut self,
        alloc: Global,
        forest: &Forest,
        i: usize,
        bits: u8,
        node: u32,
    ) -> Result<CType, Memory>
        requires making { IsMaking forest.now self.old.structs.items self.old.numbers.items }
        requires node { IsNodeOf forest.now i node }
        requires bits { IsWidth bits }
        ensures making { OnOk result (IsMaking forest.now self.new.structs.items self.new.numbers.items) }
        ensures more { OnOk result (HasMore self.old.structs.items self.new.structs.items) }
        ensures is { IfOk result (λ t. IsTypeOf forest.now self.new.structs.items i bits node t) }
        ensures good { IfOk result (λ t. IsType t × IsPresent t × (bits_of t ≡ bits)) }
        ensures stands { IfOk result (λ t. Stand (length self.old.structs.items) (struct_in t) (length self.new.structs.items)) }
    {
        match pointee_at(forest, i, bits, node) {
            Some(to) => Ok(CType::Pointer(self.number_of(forest, i, to)?)),
            None => scalar_at(alloc, forest, i, bits, node),
        }
    }
}
