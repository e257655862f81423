// Arcs between named variables.
ghost use Rattle.std.specs.Prelude.{◌≡◌, IfOk};

use rt_base::Memory;
use std::alloc::AllocError;

/// An arc to a variable, from one that lies below it by a line, or by what is pushed from ways of lines.
#[derive(Clone, Copy)]
pub struct Arc {
    /// The variable's number.
    pub to: u32,
    /// The index of the line, or `None` where it is pushed.
    pub line: Option<u32>,
}

impl Arc {
    /// The index of a line, in half the room. The error is out of memory: so many lines don't fit into it.
    pub fn line_at(i: usize) -> Result<u32, Memory>
        ensures { IfOk result (λ line. line ≡ i) }
    {
        match u32::try_from(i) {
            Ok(line) => Ok(line),
            Err(_) => Err(AllocError),
        }
    }
}
