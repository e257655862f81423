// Natural numbers in binary digits, the lowest first.
ghost use Rattle.std.specs.Prelude.{◌≡◌, ◌+◌, ◌*◌, ◌/◌, ◌<◌, ◌↔◌, IsTrue, slice_index_or, false, IfOk};
ghost use Rattle.rt_sat.specs.Counts.{digit_of, value_of};

use rt_base::Memory;
use std::alloc::Global;

// The digit at a place, 0 past the end.
pub(crate) fn digit(digits: &[bool], i: usize) -> bool
    ensures { result ≡ slice_index_or digits.now i false }
{
    if i < digits.len() { digits[i] } else { false }
}

// The sum of two numbers and a carried digit. It takes no memory where both have no digits and nothing is carried.
pub(crate) fn sum(alloc: Global, a: &[bool], b: &[bool], carry: bool) -> Result<Vec<bool>, Memory>
    ensures { IfOk result (λ s. value_of s.items ≡ value_of a.now + value_of b.now + digit_of carry) }
{
    let mut sum = Vec::new(alloc);
    let mut carried = carry;
    for i in 0..a.len().max(b.len()) {
        let (here, next) = added(digit(a, i), digit(b, i), carried);
        sum.push(here)?;
        carried = next;
    }
    if carried {
        sum.push(true)?;
    }
    Ok(sum)
}

// The sum of three digits: its digit and what is carried.
fn added(x: bool, y: bool, carried: bool) -> (bool, bool)
    ensures { digit_of x + digit_of y + digit_of carried ≡ digit_of result.0 + 2 * digit_of result.1 }
{
    match (x, y, carried) {
        (false, false, false) => (false, false),
        (true, false, false) | (false, true, false) | (false, false, true) => (true, false),
        (true, true, false) | (true, false, true) | (false, true, true) => (false, true),
        (true, true, true) => (true, true),
    }
}

// The half of a number, rounded down.
pub(crate) fn half(alloc: Global, digits: &[bool]) -> Result<Vec<bool>, Memory>
    ensures { IfOk result (λ h. value_of h.items ≡ value_of digits.now / 2) }
{
    if digits.is_empty() {
        return Ok(Vec::new(alloc));
    }
    digits[1..].to_vec(alloc)
}

// Whether a number is less than another.
pub(crate) fn is_less(a: &[bool], b: &[bool]) -> bool
    ensures { IsTrue result ↔ (value_of a.now < value_of b.now) }
{
    let mut i = a.len().max(b.len());
    while i > 0 {
        i -= 1;
        let x = digit(a, i);
        let y = digit(b, i);
        if x != y {
            return y;
        }
    }
    false
}

// Whether a number is 0.
pub(crate) fn is_zero(digits: &[bool]) -> bool
    ensures { IsTrue result ↔ (value_of digits.now ≡ 0) }
{
    for digit in digits {
        if *digit {
            return false;
        }
    }
    true
}
