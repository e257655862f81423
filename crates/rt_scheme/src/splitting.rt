// Arguments and results of other procedures split into an existential for each.
ghost use Rattle.std.specs.Prelude.{◌≡◌, ℕ, All, IfOk, map};
ghost use Rattle.rt_lines.specs.Lines.{HasConstantsBelow};
ghost use Rattle.rt_lines.specs.Orders.{Below};
ghost use Rattle.rt_rules.specs.Alike.{Alike, is_inside_for};
ghost use Rattle.rt_rules.specs.Laws.{NamesBase};
ghost use Rattle.rt_scheme.specs.Schemes.{AreSchemeLines};
ghost use Rattle.rt_scheme.specs.SplitExistentials.{existential_for, is_other, split_for};
ghost use Rattle.rt_scheme.specs.Splitting.{AreInterfaceLines, is_interface_line, is_interface_variable, split_line};

use crate::scheme::is_interface;
use crate::split_existentials::SplitExistentials;
use rt_base::{Memory, Sequence};
use rt_lines::{Base, Dtv, Line, Lines};
use std::alloc::Global;

/// The lines with each argument and result of a procedure other than the own one as an existential, one for each procedure
/// and label. These are numbered in the order in which they are first named, the left side of a line before its right, from one
/// above the greatest that the lines name on. The error is out of memory, as where a number isn't below 2^32.
pub fn split(alloc: Global, lines: &[Line], own: u32) -> Result<Lines, Memory>
    requires { AreInterfaceLines lines.now }
    ensures alike { IfOk result (λ made. (order : Below) → Alike order (is_inside_for own) lines.now made) }
    ensures constants { IfOk result
        (λ made. (count : ℕ) → All (HasConstantsBelow count) lines.now → All (HasConstantsBelow count) made) }
    ensures globals { IfOk result (λ made. (n : ℕ) → NamesBase made (Base.Global n) → NamesBase lines.now (Base.Global n)) }
    ensures scheme { IfOk result (AreSchemeLines own) }
    ensures exact { IfOk result (λ made. made ≡ split_for own lines.now) }
{
    let split = SplitExistentials::new(alloc, own, lines)?;
    split_lines(alloc, &split, lines)
}

// The lines, each split.
fn split_lines(alloc: Global, split: &SplitExistentials, lines: &[Line]) -> Result<Lines, Memory>
    ensures { IfOk result (λ made. made ≡ map
        (split_line (is_other split.now.own) (existential_for split.now.first split.now.found.keys)) lines.now) }
{
    let mut made = Vec::with_capacity(alloc, lines.len())?;
    for line in lines {
        made.push(split.line(alloc, line)?)?;
    }
    Ok(Sequence::from_vec(made))
}

// Whether `split` takes lines of the variable.
fn is_interface_variable(x: &Dtv) -> bool
    ensures { result ≡ is_interface_variable x.now }
{
    match x.base {
        Base::Proc(_) => is_interface(&x.word),
        Base::Global(_) | Base::Exist(_) => true,
        Base::Outer(_) => false,
    }
}

/// Whether `split` takes the line: each of its bases is a procedure, followed first by the label of an argument or a result,
/// or a global, or an existential. It takes no memory.
pub fn is_interface_line(line: &Line) -> bool
    ensures { result ≡ is_interface_line line.now }
{
    for x in line.sides() {
        if !is_interface_variable(x) {
            return false;
        }
    }
    true
}
