// A side in an existential's place.
ghost use Rattle.std.specs.Prelude.{◌≡◌, IfOk};
ghost use Rattle.rt_rules.specs.Alike.{map_line};
ghost use Rattle.rt_rules.specs.Put.{put as put_there, put_lines};

use rt_base::{Memory, Sequence};
use rt_lines::{Base, Dtv, Line, Lines};
use std::alloc::Global;

/// The variable with the side in the existential's place. The error is out of memory.
pub fn put_in(x: &Dtv, v: u32, side: &Dtv) -> Result<Dtv, Memory>
    ensures { IfOk result (λ r. r ≡ put_there v side.now x.now) }
{
    if x.base != Base::Exist(v) {
        return x.copy();
    }
    let mut longer = side.copy()?;
    longer.word.append(&x.word)?;
    Ok(longer)
}

// The line with the side in the existential's place.
fn put_in_line(line: &Line, v: u32, side: &Dtv) -> Result<Line, Memory>
    ensures { IfOk result (λ r. r ≡ map_line (put_there v side.now) line.now) }
{
    line.map(|x| put_in(x, v, side))
}

/// The lines with the side in the existential's place. The error is out of memory.
pub fn put(alloc: Global, lines: &[Line], v: u32, side: &Dtv) -> Result<Lines, Memory>
    ensures { IfOk result (λ r. r ≡ put_lines v side.now lines.now) }
{
    let mut put = Vec::with_capacity(alloc, lines.len())?;
    for line in lines {
        put.push(put_in_line(line, v, side)?)?;
    }
    Ok(Sequence::from_vec(put))
}
