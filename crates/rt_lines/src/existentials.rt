// Numbers of existentials.
ghost use Rattle.std.specs.Prelude.{◌≡◌, fold, map, max};
ghost use Rattle.rt_lines.specs.FirstFree.{above as one_above, first_free as first_number};
ghost use Rattle.rt_lines.specs.Sides.{sides};

use crate::line::Line;
use crate::variable::Base;

/// One above the greatest existential that the lines name, or 0: the first number from which on all are free. It takes no
/// memory.
pub fn first_free(lines: &[Line]) -> u64
    ensures { result ≡ first_number lines.now }
{
    let mut first: u64 = 0;
    for line in lines {
        first = max_above(first, line);
    }
    first
}

// The greater of the number and one above the greatest existential of the line.
fn max_above(first: u64, line: &Line) -> u64
    ensures { result ≡ fold max first (map (λ x. one_above x.base) (sides line.now)) }
{
    let mut max = first;
    for x in line.sides() {
        max = max.max(above(x.base));
    }
    max
}

// One above an existential, 0 of another base.
fn above(base: Base) -> u64
    ensures { result ≡ one_above base }
{
    match base {
        Base::Exist(number) => u64::from(number) + 1,
        Base::Proc(_) | Base::Global(_) | Base::Outer(_) => 0,
    }
}
