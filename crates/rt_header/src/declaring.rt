// The header of sketches.
ghost use Rattle.std.specs.Prelude.{◌≡◌, ◌++◌, ◌∷◌, [], ◌<◌, All, IfOk, OnOk, ℕ, length, map};
ghost use Rattle.std.specs.List.Sorted.{IsStrictlyIncreasing};
ghost use Rattle.rt_lattice.specs.Lattices.{size_of};
ghost use Rattle.rt_sketch.specs.Sketches.{HasMarksBelow};
ghost use Rattle.rt_tree.specs.Trees.{Nodes};
ghost use Rattle.rt_cdecl.specs.GoodDecls.{IsGoodDecls, function_numbers, used_types};
ghost use Rattle.rt_cdecl.specs.Types.{IsTypedef};
ghost use Rattle.rt_header.specs.Inside.Whole.{AreDeclared, AreWhole, HasTypedefs};
ghost use Rattle.rt_header.specs.Headers.{IsHeaderOf};

use crate::forest::Forest;
use crate::function::function_of;
use crate::making::Making;
use crate::structs::search;
use rt_base::{Memory, Sequence};
use rt_cdecl::{CFunctions, CStructs, Decls, typedefs};
use rt_lattice::Lattice;
use rt_sketch::Sketch;
use std::alloc::Global;

/// Sketches, each with the number of its procedure.
pub type Sketches = Sequence<(u32, Sketch)>;

// The structs and functions of a header.
#[derive(Drop)]
struct Parts {
    structs: CStructs,
    functions: CFunctions,
}

// Declares the function of the next tree, with the number of its procedure, and the structs that it is the first to
// lead to.
fn declare(
    alloc: Global,
    forest: &Forest,
    making: &mut Making,
    structs: &mut CStructs,
    functions: &mut CFunctions,
    number: u32,
) -> Result<(), Memory>
    requires declared { AreDeclared forest.now making.old.structs.items making.old.numbers.items structs.old functions.old }
    requires tree { length functions.old < length forest.now.trees }
    ensures declared { OnOk result (AreDeclared forest.now making.new.structs.items making.new.numbers.items
        structs.new functions.new) }
    ensures number { OnOk result (function_numbers functions.new ≡ function_numbers functions.old ++ number ∷ []) }
{
    let function = function_of(alloc, forest, making, functions.len(), number)?;
    functions.push(function)?;
    search(alloc, forest, making, structs)?;
    Ok(())
}

// The structs and functions of the trees of sketches.
fn parts_of(alloc: Global, forest: &Forest, sketches: &Sketches) -> Result<Parts, Memory>
    requires { forest.now.trees ≡ map (λ (s : ℕ × Nodes). s.1) sketches.now }
    ensures whole { IfOk result (λ parts. AreWhole forest.now parts.structs parts.functions) }
    ensures numbers { IfOk result (λ parts.
        function_numbers parts.functions ≡ map (λ (s : ℕ × Nodes). s.0) sketches.now) }
{
    let mut making = Making::new(alloc, forest)?;
    let mut structs = Sequence::new(alloc);
    let mut functions = Sequence::new(alloc);
    for sketch in sketches.items() {
        declare(
            alloc,
            forest,
            &mut making,
            &mut structs,
            &mut functions,
            sketch.0,
        )?;
    }
    Ok(Parts { structs, functions })
}

// The declarations of structs and functions, with the types that they use.
fn decls_of(alloc: Global, parts: Parts) -> Result<Decls, Memory>
    requires { All IsTypedef (used_types parts.structs parts.functions) }
    ensures structs { IfOk result (λ decls. decls.structs ≡ parts.structs) }
    ensures functions { IfOk result (λ decls. decls.functions ≡ parts.functions) }
    ensures typedefs { IfOk result HasTypedefs }
{
    let Parts { structs, functions } = parts;
    let typedefs = typedefs(alloc, structs.items(), functions.items())?;
    Ok(Decls {
        typedefs,
        structs,
        functions,
    })
}

/// The declarations of procedures by their sketches. Structs are numbered as they are first met: breadth first from the
/// arguments and then the results of each procedure, procedures in their order, fields by offset. The error is out of
/// memory, or of numbers of 32 bits.
pub fn header(alloc: Global, sketches: &Sketches, lattice: &Lattice) -> Result<Decls, Memory>
    requires ascending { IsStrictlyIncreasing (map (λ (s : ℕ × Nodes). s.0) sketches.now) }
    requires marks { All (λ (s : ℕ × Nodes). HasMarksBelow (size_of lattice.now) s.1) sketches.now }
    ensures good { IfOk result IsGoodDecls }
    ensures header { IfOk result (IsHeaderOf lattice.now sketches.now) }
{
    let forest = Forest::of(alloc, sketches, lattice)?;
    let parts = parts_of(alloc, &forest, sketches)?;
    let decls = decls_of(alloc, parts)?;
    Ok(decls)
}
