// The variables that lines name, and those of one shape by the lines themselves.
ghost use Rattle.std.specs.Prelude.{◌≡◌, ℕ, ◌⊎◌, [], ◌∷◌, ◌++◌, Some, IfOk, IfSome, MatchOption, OnOk};
ghost use Rattle.rt_lines.specs.declared.variable.Dtv.{Dtv};
ghost use Rattle.rt_rules.specs.Rules.{HasSide};
ghost use Rattle.rt_shape.specs.Graphs.{Has, IsKept, IsTree};
ghost use Rattle.rt_shape.specs.Shapes.{ArePairOf, ArePairs, IsFront, IsNaming};

use crate::tree::Tree;
use rt_base::Memory;
use rt_lines::Line;
use std::alloc::Global;

/// The variables that lines name, with the nodes of the two sides of each line that says that these have one shape.
#[derive(Drop)]
pub struct Naming {
    /// A node for each variable.
    pub tree: Tree,
    /// The nodes of the sides.
    pub pairs: Vec<(u32, u32)>,
}

/// The tree of the variables that the lines name: the sides of the lines, and what has a prefix of a side's word; with the nodes
/// of the two sides of each line that says that these have one shape. It takes memory linear in the letters of the lines. The
/// error is out of memory.
pub fn named(alloc: Global, lines: &[Line]) -> Result<Naming, Memory>
    ensures good { IfOk result (λ named. IsTree named.tree) }
    ensures naming { IfOk result (λ named. IsNaming lines.now named.tree) }
    ensures pairs { IfOk result (λ named. ArePairs lines.now named.tree named.pairs.items) }
{
    let mut tree = Tree::new(alloc);
    let mut pairs = Vec::new(alloc);
    for line in lines {
        let sides = enter_line(&mut tree, line)?;
        add_pair(&mut pairs, sides)?;
    }
    // The call says that it is a tree.
    tree.count();
    Ok(Naming { tree, pairs })
}

// Adds a pair at the end, if there is one.
fn add_pair(pairs: &mut Vec<(u32, u32)>, pair: Option<(u32, u32)>) -> Result<(), Memory>
    ensures { OnOk result (MatchOption pair (pairs.new.items ≡ pairs.old.items)
        (λ p. pairs.new.items ≡ pairs.old.items ++ p ∷ [])) }
{
    if let Some(pair) = pair {
        pairs.push(pair)?;
    }
    Ok(())
}

// Gives nodes to the sides of a line. Those of its two sides, where it says that they have one shape.
fn enter_line(tree: &mut Tree, line: &Line) -> Result<Option<(u32, u32)>, Memory>
    ensures sides { OnOk result ((x : Dtv) → HasSide line.now x → Has tree.new x) }
    ensures kept { OnOk result (IsKept tree.old tree.new) }
    ensures only { OnOk result ((x : Dtv) → Has tree.new x → Has tree.old x ⊎ ((y : Dtv) × HasSide line.now y × IsFront x y)) }
    ensures found { IfOk result (λ pair. (i j : ℕ) → ArePairOf tree.new line.now i j → pair ≡ Some (i, j)) }
    ensures are { IfOk result (λ pair. IfSome pair (λ p. ArePairOf tree.new line.now p.0 p.1)) }
{
    match line {
        Line::Var(x) | Line::Low(_, x) | Line::Up(x, _) => {
            tree.enter(x)?;
            Ok(None)
        }
        Line::Same(x, y) | Line::Sub(x, y) => {
            let left = tree.enter(x)?;
            let right = tree.enter(y)?;
            Ok(Some((left, right)))
        }
    }
}
