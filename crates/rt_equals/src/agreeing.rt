// Whether numbers from outside and from inside say the same of existentials.
ghost use Rattle.std.specs.Prelude.{◌≡◌, ℕ, ◌<◌, IsTrue, IfOk, length, slice_index_or};
ghost use Rattle.rt_equals.specs.Comparing.{Agree, AreAsMarked, AreMarked, IsExistential};

use rt_base::Memory;
use rt_lines::Base;
use rt_named::{Named, Origin};
use rt_outline::Classes;
use std::alloc::Global;

// Whether those that have an existential's number by the first numbers have it by the second ones too.
pub(crate) fn agree(
    alloc: Global,
    named: &Named,
    outer: &Classes,
    inner: &[usize],
) -> Result<bool, Memory>
    requires outer { length outer.now.numbers.items ≡ length named.now }
    requires inner { length inner.now ≡ length named.now }
    requires few { (i : ℕ) → i < length named.now → slice_index_or outer.now.numbers.items i 0 < outer.now.count }
    ensures { IfOk result (λ yes. IsTrue yes → Agree named.now outer.now.numbers.items inner.now) }
{
    let marks = marked(alloc, named, outer, inner)?;
    Ok(are_as_marked(&outer.numbers, inner, &marks))
}

// At each number of an existential by the first numbers one of those that it has by the second ones.
pub(crate) fn marked(
    alloc: Global,
    named: &Named,
    outer: &Classes,
    inner: &[usize],
) -> Result<Vec<Option<usize>>, Memory>
    requires outer { length outer.now.numbers.items ≡ length named.now }
    requires inner { length inner.now ≡ length named.now }
    requires few { (i : ℕ) → i < length named.now → slice_index_or outer.now.numbers.items i 0 < outer.now.count }
    ensures each { IfOk result (λ marks. length marks.items ≡ outer.now.count) }
    ensures marked { IfOk result (λ marks. AreMarked named.now outer.now.numbers.items (length named.now) marks.items) }
{
    let mut marks = vec![in alloc; None; outer.count]?;
    for i in 0..named.len() {
        if is_existential(named, i as u32) {
            marks[outer.numbers[i]] = Some(inner[i]);
        }
    }
    Ok(marks)
}

// Whether where a number is marked the others are as marked.
fn are_as_marked(outer: &[usize], inner: &[usize], marks: &[Option<usize>]) -> bool
    requires inner { length inner.now ≡ length outer.now }
    requires few { (i : ℕ) → i < length outer.now → slice_index_or outer.now i 0 < length marks.now }
    ensures { IsTrue result → AreAsMarked outer.now inner.now (length outer.now) marks.now }
{
    for j in 0..outer.len() {
        if let Some(number) = marks[outer[j]] {
            if number != inner[j] {
                return false;
            }
        }
    }
    true
}

// Whether the variable of a number is a bare existential.
fn is_existential(named: &Named, number: u32) -> bool
    requires { number < length named.now }
    ensures { IsExistential named.now number → IsTrue result }
{
    match named.origin(number) {
        Origin::Bare(Base::Exist(_)) => true,
        Origin::Bare(_) => false,
        Origin::Longer(_, _) => false,
    }
}
