// Structs of what pointers lead to.
ghost use Rattle.std.specs.Prelude.{◌≡◌, ◌<◌, ◌++◌, All, IfOk, List, OnOk, length};
ghost use Rattle.rt_tree.specs.Trees.{Stand};
ghost use Rattle.rt_cdecl.specs.declared.declarations.CStruct.{CStruct};
ghost use Rattle.rt_cdecl.specs.GoodDecls.{IsStruct};
ghost use Rattle.rt_cdecl.specs.Types.{IsField};
ghost use Rattle.rt_erase.specs.Rows.{IsRow};
ghost use Rattle.rt_header.specs.Inside.Built.{AreFieldsOf, HasMore, IsMaking, IsStructBuilt, tree_of};
ghost use Rattle.rt_header.specs.Inside.Made.{AreMade};
ghost use Rattle.rt_header.specs.Met.{AreSearched, structs_of_fields};

use crate::forest::Forest;
use crate::making::Making;
use rt_base::{Memory, Sequence};
use rt_cdecl::{CField, CStruct, CStructs};
use rt_erase::{Row, fields};
use std::alloc::Global;

// A field of each row of a tree.
fn fields_of(
    alloc: Global,
    forest: &Forest,
    making: &mut Making,
    i: usize,
    rows: &[Row],
) -> Result<Vec<CField>, Memory>
    requires making { IsMaking forest.now making.old.structs.items making.old.numbers.items }
    requires tree { i < length forest.now.trees }
    requires rows { All (IsRow (length (tree_of forest.now i))) rows.now }
    ensures making { OnOk result (IsMaking forest.now making.new.structs.items making.new.numbers.items) }
    ensures more { OnOk result (HasMore making.old.structs.items making.new.structs.items) }
    ensures built { IfOk result (λ fields. AreFieldsOf forest.now making.new.structs.items i rows.now fields.items) }
    ensures good { IfOk result (λ fields. All IsField fields.items) }
    ensures stands { IfOk result (λ fields.
        Stand (length making.old.structs.items) (structs_of_fields fields.items) (length making.new.structs.items)) }
{
    let mut fields = Vec::with_capacity(alloc, rows.len())?;
    for row in rows {
        let kind = making.type_of(alloc, forest, i, row.bits, row.node)?;
        fields.push(CField {
            offset: row.offset,
            kind,
        })?;
    }
    Ok(fields)
}

// The struct of a number.
pub(crate) fn struct_of(
    alloc: Global,
    forest: &Forest,
    making: &mut Making,
    number: usize,
) -> Result<CStruct, Memory>
    requires making { IsMaking forest.now making.old.structs.items making.old.numbers.items }
    requires number { number < length making.old.structs.items }
    ensures making { OnOk result (IsMaking forest.now making.new.structs.items making.new.numbers.items) }
    ensures more { OnOk result (HasMore making.old.structs.items making.new.structs.items) }
    ensures built { IfOk result (λ made. IsStructBuilt forest.now making.new.structs.items number made) }
    ensures good { IfOk result (IsStruct (length making.new.structs.items)) }
    ensures stands { IfOk result (λ made.
        Stand (length making.old.structs.items) (structs_of_fields made.fields) (length making.new.structs.items)) }
{
    let (i, node) = making.structs[number];
    let rows = fields(alloc, forest.tree(i), node)?;
    let fields = fields_of(alloc, forest, making, i, &rows)?;
    Ok(CStruct {
        number: number as u32,
        fields: Sequence::from_vec(fields),
    })
}

// The structs from a number on, until each that was met has been made. Those of smaller numbers have been made.
pub(crate) fn search(
    alloc: Global,
    forest: &Forest,
    making: &mut Making,
    made: &mut CStructs,
) -> Result<(), Memory>
    requires making { IsMaking forest.now making.old.structs.items making.old.numbers.items }
    requires made { AreMade forest.now making.old.structs.items made.old }
    ensures making { OnOk result (IsMaking forest.now making.new.structs.items making.new.numbers.items) }
    ensures more { OnOk result (HasMore making.old.structs.items making.new.structs.items) }
    ensures made { OnOk result (AreMade forest.now making.new.structs.items made.new) }
    ensures all { OnOk result (length made.new ≡ length making.new.structs.items) }
    ensures searched { OnOk result ((own : List CStruct) × (made.new ≡ made.old ++ own) ×
        AreSearched (length made.old) (length making.old.structs.items) own) }
{
    while made.len() < making.structs.len() {
        let next = struct_of(alloc, forest, making, made.len())?;
        made.push(next)?;
    }
    Ok(())
}
