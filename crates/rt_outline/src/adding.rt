// Arcs one by one.
ghost use Rattle.std.specs.Prelude.{◌<◌, OnOk, length};
ghost use Rattle.rt_outline.specs.Arcs.{IsAdded};

use crate::arc::Arc;
use rt_base::{Memory, Sequence};

// Adds an arc.
pub(crate) fn add(arcs: &mut Vec<Sequence<Arc>>, from: u32, arc: Arc) -> Result<(), Memory>
    requires { from < length arcs.old.items }
    ensures { OnOk result (IsAdded from arc arcs.old.items arcs.new.items) }
{
    arcs[from as usize].push(arc)?;
    Ok(())
}
