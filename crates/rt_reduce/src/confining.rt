// Which lines may matter for others.
ghost use Rattle.std.specs.Prelude.{◌≡◌, false, slice_index_or};

use rt_base::Memory;
use rt_lines::{Dtv, Line};
use rt_outline::Upper;
use std::alloc::Global;

// Along how many lines what may have a common lower variable is looked for.
const FAR: u8 = 6;

// Whether there is a flag at the index, and it is set.
pub(crate) fn is_set(flags: &[bool], i: usize) -> bool
    ensures { result ≡ slice_index_or flags.now i false }
{
    match flags.get(i) {
        Some(flag) => *flag,
        None => false,
    }
}

// For each line whether it is a `<=` line that may matter for those that aren't flagged, as far as arcs from outside show, if
// there are such. Nothing is promised of this: effort alone rests on it.
pub(crate) fn among(
    alloc: Global,
    outer: Option<&Upper>,
    lines: &[Line],
    stays: &[bool],
) -> Result<Vec<bool>, Memory> {
    let all = vec![in alloc; true; lines.len()]?;
    let Some(outer) = outer else {
        return Ok(all);
    };
    let ends = open_sides(alloc, lines, stays)?;
    let among = outer.confined(alloc, &all, &ends, FAR)?;
    Ok(among)
}

// The sides of the `<=` lines that aren't flagged.
fn open_sides(alloc: Global, lines: &[Line], stays: &[bool]) -> Result<Vec<Dtv>, Memory> {
    let mut sides = Vec::new(alloc);
    for i in 0..lines.len() {
        if !is_set(stays, i)
            && let Line::Sub(x, y) = &lines[i]
        {
            sides.push(x.copy()?)?;
            sides.push(y.copy()?)?;
        }
    }
    Ok(sides)
}
