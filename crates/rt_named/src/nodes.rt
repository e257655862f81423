//! The nodes of named variables in a shape.
ghost use Rattle.std.specs.Prelude.{◌≡◌, length, IfOk};
ghost use Rattle.rt_named.specs.Nodes.{AreFlipsOf, AreNodesOf, flips_at, node_made};
ghost use Rattle.rt_named.specs.Origins.{IsBelow};

use crate::named::Named;
use crate::origin::Origin;
use rt_base::Memory;
use rt_lines::{Dtv, Word};
use rt_shape::Shape;
use std::alloc::Global;

/// The node of each named variable, or `None` where it has none. The error is out of memory.
pub fn nodes(alloc: Global, named: &Named, shape: &Shape) -> Result<Vec<Option<u32>>, Memory>
    ensures { IfOk result (λ nodes. AreNodesOf shape.now named.now nodes.items) }
{
    let mut nodes = Vec::new(alloc);
    for number in 0..named.len() {
        let node = node(alloc, shape, &nodes, named.origin(number as u32));
        nodes.push(node)?;
    }
    Ok(nodes)
}

// The node of a variable that is made of an earlier one, by the nodes of those.
fn node(alloc: Global, shape: &Shape, nodes: &[Option<u32>], origin: Origin) -> Option<u32>
    requires { IsBelow origin (length nodes.now) }
    ensures { result ≡ node_made shape.now nodes.now origin }
{
    match origin {
        Origin::Bare(base) => {
            let x = Dtv {
                base,
                word: Word::empty(alloc),
            };
            shape.node(&x)
        }
        Origin::Longer(parent, label) => match nodes[parent as usize] {
            Some(node) => shape.step(node, &label),
            None => None,
        },
    }
}

/// For each node of a list whether it can be read and written through. The error is out of memory.
pub fn flips(alloc: Global, shape: &Shape, nodes: &[Option<u32>]) -> Result<Vec<bool>, Memory>
    ensures { IfOk result (λ flips. AreFlipsOf shape.now nodes.now flips.items) }
{
    let mut flips = Vec::new(alloc);
    for node in nodes {
        flips.push(is_flip(shape, *node))?;
    }
    Ok(flips)
}

/// Whether a node can be read and written through: it has a load and a store.
pub fn is_flip(shape: &Shape, node: Option<u32>) -> bool
    ensures { result ≡ flips_at shape.now node }
{
    match node {
        Some(node) => shape.is_rw(node),
        None => false,
    }
}
