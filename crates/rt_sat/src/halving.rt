// Counts that are pushed.
ghost use Rattle.std.specs.Prelude.{◌≡◌, ◌+◌, ◌%◌, ◌<◌, ◌≤◌, ℕ, Some, IfSome};
ghost use Rattle.rt_sat.specs.Counts.{digit_of};
ghost use Rattle.rt_sat.specs.Hints.{bit_of};
ghost use Rattle.rt_sat.specs.Numbered.{sign_of};
ghost use Rattle.rt_sat.specs.Pushes.{PushBy};

use crate::pushing::{is_pointer, sign, turns};
use rt_lines::Label;

// The least count that one between two parents gives between children with these letters and signs.
pub(crate) fn between(
    flip: bool,
    first: Label,
    second: Label,
    count: u8,
    a: bool,
    b: bool,
) -> Option<u8>
    requires { count < 255 }
    ensures push { IfSome result (λ k. PushBy flip first second count (sign_of a) (sign_of b) k) }
    ensures least { (k : ℕ) → PushBy flip first second count (sign_of a) (sign_of b) k →
        (n : ℕ) × (result ≡ Some n) × (n ≤ k) }
{
    if flip && is_pointer(first) && is_pointer(second) {
        let left = first.variance().times(sign(a));
        let right = second.variance().times(sign(b));
        let half = half(count, turns(left), turns(right), a != b);
        if first == second && count < half {
            return Some(count);
        }
        return Some(half);
    }
    if first == second { Some(count) } else { None }
}

// The least count of a half push.
pub(crate) fn half(count: u8, left: bool, right: bool, differ: bool) -> u8
    requires { count < 255 }
    ensures enough { count + bit_of left ≤ result + result + bit_of right }
    ensures parity { (result + digit_of differ) % 2 ≡ 0 }
    ensures least { (other : ℕ) → count + bit_of left ≤ other + other + bit_of right → (other + digit_of differ) % 2 ≡ 0 →
        result ≤ other }
{
    let more = if left {
        u16::from(count)
    } else {
        u16::from(count) + 1
    };
    let rest = if right { more } else { more.saturating_sub(1) };
    let half = rest.div_ceil(2);
    let odd = half % 2 == 1;
    if odd == differ {
        half as u8
    } else {
        (half + 1) as u8
    }
}
