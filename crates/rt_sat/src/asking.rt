// Whether a way of count nought leads from one of some numbers to one of others, asked while edges are pushed.
ghost use Rattle.std.specs.Prelude.{◌≡◌, ℕ, ◌↔◌, Contains, IsTrue, IfOk, length};
ghost use Rattle.rt_sat.specs.Numbered.{AreDistinct};
ghost use Rattle.rt_sat.specs.Pushes.{AreChildren, AreIndexed};
ghost use Rattle.rt_sat.specs.Searches.{IsKnown};
ghost use Rattle.rt_sat.specs.Tables.{HasNought, IsAnswer, place};

use crate::checking::checked;
use crate::closing::pass;
use crate::hints::{Hinted, hints};
use crate::layers::Layers;
use crate::reached::Reached;
use crate::spreading::spread;
use crate::state::State;
use crate::table::Begun;
use rt_base::Memory;
use std::alloc::Global;

// Whether what is pushed from the edges of lines gives a way of count nought from one of the sources to one of the targets.
// Edges are pushed only until there is such a way.
pub(crate) fn reaches(
    alloc: Global,
    begun: Begun,
    sources: &[u32],
    targets: &[u32],
) -> Result<bool, Memory>
    requires children { AreChildren begun.frame.named begun.frame.children.items }
    requires distinct { AreDistinct begun.frame.named }
    requires nodes { length begun.frame.nodes.items ≡ length begun.frame.named }
    ensures { IfOk result (λ yes. IsAnswer begun sources.now targets.now yes) }
{
    let Begun { frame, first } = begun;
    let hinted = hints(alloc, &frame, &first)?;
    let Hinted { edges, family } = hinted;
    let mut layers = Layers::new(alloc, first, edges)?;
    if meets(alloc, &layers, sources, targets)? {
        return Ok(true);
    }
    let mut done = checked(alloc, &frame, &layers, family.as_ref())?;
    loop {
        let before = layers.edges.len();
        done = pass(alloc, &frame, &mut layers, &done)?;
        if layers.edges.len() == before {
            return Ok(false);
        }
        if meets(alloc, &layers, sources, targets)? {
            return Ok(true);
        }
        spread(&layers.edges, before, &mut done);
    }
}

// Whether a way of count nought leads from one of the sources to one of the targets.
fn meets(alloc: Global, layers: &Layers, sources: &[u32], targets: &[u32]) -> Result<bool, Memory>
    requires { AreIndexed layers.now }
    ensures { IfOk result (λ yes. IsTrue yes ↔ HasNought layers.now.edges.items sources.now targets.now) }
{
    let mut found = Reached::new(alloc);
    for source in sources {
        let start = State {
            variable: *source,
            contra: false,
        };
        layers.search(alloc, start, Some(0), &mut found)?;
        if has_nought(&found, targets) {
            return Ok(true);
        }
    }
    Ok(false)
}

// Whether the count nought is known of one of the numbers.
fn has_nought(found: &Reached, targets: &[u32]) -> bool
    ensures { IsTrue result ↔ ((t : ℕ) × Contains targets.now t × IsKnown found.now (place t) 0) }
{
    for target in targets {
        if is_nought(found, *target) {
            return true;
        }
    }
    false
}

// Whether the count nought is known of a number.
fn is_nought(found: &Reached, target: u32) -> bool
    ensures { IsTrue result ↔ IsKnown found.now (place target) 0 }
{
    let state = State {
        variable: target,
        contra: false,
    };
    match found.get(state) {
        Some(count) => count.capped() == 0,
        None => false,
    }
}
