// The types that have a line of their own.
ghost use Rattle.std.specs.Prelude.{◌≡◌, [], ◌∷◌, All, IfOk, OnOk, map};
ghost use Rattle.std.specs.BTreeMap.{IsOrdered, values};
ghost use Rattle.std.specs.Cmp.Lexicographic.{slice_cmp};
ghost use Rattle.std.specs.List.{flat_map};
ghost use Rattle.std.specs.Ordering.{nat_cmp};
ghost use Rattle.rt_cdecl.specs.GoodDecls.{AreAscending, arg_types, function_types, named_types, result_types, struct_types, used_types};
ghost use Rattle.rt_cdecl.specs.declared.declarations.CType.TheVariants.{Unused};
ghost use Rattle.rt_cdecl.specs.Lines.{Gains, HaveSame};
ghost use Rattle.rt_cdecl.specs.Rows.{typedef_text};
ghost use Rattle.rt_cdecl.specs.Types.{IsTypedef};

use crate::declarations::{CField, CFunction, CStruct, CType, CTypes};
use crate::printing::push_typedef_text;
use rt_base::{Memory, Sequence};
use rt_lines::Loc;
use std::alloc::Global;
use std::collections::BTreeMap;

// Types by their lines.
type Lines = BTreeMap<Vec<u8>, CType>;

// An equal type.
fn copy_of(kind: &CType) -> Result<CType, Memory>
    ensures { IfOk result (λ copy. copy ≡ kind.now) }
{
    match kind {
        CType::Unused => Ok(CType::Unused),
        CType::Scalar(name, bits) => Ok(CType::Scalar(name.copy()?, *bits)),
        CType::Pointer(n) => Ok(CType::Pointer(*n)),
    }
}

// Notes a type that has a line of its own.
fn note_named(alloc: Global, kind: &CType, lines: &mut Lines) -> Result<(), Memory>
    ensures { OnOk result (Gains lines.old lines.new (kind.now ∷ [])) }
{
    let mut line = Vec::new(alloc);
    push_typedef_text(kind, &mut line)?;
    lines.insert(line, copy_of(kind)?)?;
    Ok(())
}

// Notes a type, if it has a line of its own.
fn note(alloc: Global, kind: &CType, lines: &mut Lines) -> Result<(), Memory>
    ensures { OnOk result (Gains lines.old lines.new (named_types kind.now)) }
{
    match kind {
        CType::Unused => note_named(alloc, kind, lines),
        CType::Scalar(..) => note_named(alloc, kind, lines),
        CType::Pointer(_) => Ok(()),
    }
}

// Notes those of the fields of a struct.
fn note_fields(alloc: Global, fields: &[CField], lines: &mut Lines) -> Result<(), Memory>
    ensures { OnOk result (Gains lines.old lines.new (flat_map (λ f. named_types f.kind) fields.now)) }
{
    for field in fields {
        note(alloc, &field.kind, lines)?;
    }
    Ok(())
}

// Notes those of structs.
fn note_structs(alloc: Global, structs: &[CStruct], lines: &mut Lines) -> Result<(), Memory>
    ensures { OnOk result (Gains lines.old lines.new (flat_map struct_types structs.now)) }
{
    for item in structs {
        note_fields(alloc, item.fields.items(), lines)?;
    }
    Ok(())
}

// Notes those of the arguments of a function.
fn note_args(alloc: Global, args: &[(Loc, CType)], lines: &mut Lines) -> Result<(), Memory>
    ensures { OnOk result (Gains lines.old lines.new (flat_map named_types (arg_types args.now))) }
{
    for arg in args {
        note(alloc, &arg.1, lines)?;
    }
    Ok(())
}

// Notes the type of a result in a0 beside none in a1, if there is one and it has a line of its own.
fn note_alone(alloc: Global, out0: &CType, lines: &mut Lines) -> Result<(), Memory>
    ensures { OnOk result (Gains lines.old lines.new (result_types out0.now Unused)) }
{
    match out0 {
        CType::Unused => Ok(()),
        CType::Scalar(..) => note_named(alloc, out0, lines),
        CType::Pointer(_) => Ok(()),
    }
}

// Notes those of the results of a function.
fn note_results(alloc: Global, out0: &CType, out1: &CType, lines: &mut Lines) -> Result<(), Memory>
    ensures { OnOk result (Gains lines.old lines.new (result_types out0.now out1.now)) }
{
    if let CType::Unused = out1 {
        return note_alone(alloc, out0, lines);
    }
    note(alloc, out0, lines)?;
    note(alloc, out1, lines)?;
    Ok(())
}

// Notes those of a function.
fn note_function(alloc: Global, function: &CFunction, lines: &mut Lines) -> Result<(), Memory>
    ensures { OnOk result (Gains lines.old lines.new (function_types function.now)) }
{
    note_results(alloc, &function.out0, &function.out1, lines)?;
    note_args(alloc, function.args.items(), lines)?;
    Ok(())
}

// Notes those of functions.
fn note_functions(alloc: Global, functions: &[CFunction], lines: &mut Lines) -> Result<(), Memory>
    ensures { OnOk result (Gains lines.old lines.new (flat_map function_types functions.now)) }
{
    for function in functions {
        note_function(alloc, function, lines)?;
    }
    Ok(())
}

// The types in the order of their lines.
fn listed(alloc: Global, lines: Lines) -> Result<CTypes, Memory>
    ensures types { IfOk result (λ types. types ≡ values lines) }
    ensures ordered { OnOk result (IsOrdered (λ x y. slice_cmp nat_cmp x.items y.items) lines) }
{
    let mut types = Vec::with_capacity(alloc, lines.len())?;
    for kind in lines.into_values() {
        types.push(kind)?;
    }
    Ok(Sequence::from_vec(types))
}

/// The scalars that structs and functions use, and `Unused` where that is used, each once and in the byte order of their
/// lines. The error is out of memory.
pub fn typedefs(
    alloc: Global,
    structs: &[CStruct],
    functions: &[CFunction],
) -> Result<CTypes, Memory>
    requires { All IsTypedef (used_types structs.now functions.now) }
    ensures each { IfOk result (λ types. All IsTypedef types) }
    ensures rise { IfOk result (λ types. AreAscending (map typedef_text types)) }
    ensures exact { IfOk result (λ types. HaveSame types (used_types structs.now functions.now)) }
{
    let mut lines = BTreeMap::new(alloc);
    note_structs(alloc, structs, &mut lines)?;
    note_functions(alloc, functions, &mut lines)?;
    let types = listed(alloc, lines)?;
    Ok(types)
}
