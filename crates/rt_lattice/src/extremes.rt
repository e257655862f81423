// Tops, bottoms and cycles of an order.
ghost use Rattle.std.specs.Prelude.{◌↔◌, ◌<◌, IsTrue, MatchOption};
ghost use Rattle.rt_lines.specs.Orders.{IsAtOrBelow};
ghost use Rattle.rt_lines.specs.OrderFacts.{IsOrder};
ghost use Rattle.rt_lattice.specs.Bounds.{IsTop, IsBottom, HasPartner, HasTop, HasBottom, HasNoCycle, IsFirstOnCycle};

use rt_lines::Order;

// Whether the number is above all.
fn is_top(order: &Order, top: u16) -> bool
    requires { top < order.now.count }
    ensures { IsTrue result ↔ IsTop (IsAtOrBelow order.now) order.now.count top }
{
    for a in 0..order.count() {
        if !order.le(a, top) {
            return false;
        }
    }
    true
}

// Whether the number is below all.
fn is_bottom(order: &Order, bottom: u16) -> bool
    requires { bottom < order.now.count }
    ensures { IsTrue result ↔ IsBottom (IsAtOrBelow order.now) order.now.count bottom }
{
    for a in 0..order.count() {
        if !order.le(bottom, a) {
            return false;
        }
    }
    true
}

// The first number that is above all.
pub(crate) fn top_of(order: &Order) -> Option<u16>
    ensures { MatchOption result (HasTop (IsAtOrBelow order.now) order.now.count → ⊥) (IsTop (IsAtOrBelow order.now) order.now.count) }
{
    for top in 0..order.count() {
        if is_top(order, top) {
            return Some(top);
        }
    }
    None
}

// The first number that is below all.
pub(crate) fn bottom_of(order: &Order) -> Option<u16>
    ensures { MatchOption result (HasBottom (IsAtOrBelow order.now) order.now.count → ⊥)
        (IsBottom (IsAtOrBelow order.now) order.now.count) }
{
    for bottom in 0..order.count() {
        if is_bottom(order, bottom) {
            return Some(bottom);
        }
    }
    None
}

// Whether another number is above and below this one.
fn has_partner(order: &Order, a: u16) -> bool
    requires { a < order.now.count }
    ensures { IsTrue result ↔ HasPartner (IsAtOrBelow order.now) order.now.count a }
{
    for b in 0..order.count() {
        if a != b && order.le(a, b) && order.le(b, a) {
            return true;
        }
    }
    false
}

// The first number for which there is another one above and below it.
pub(crate) fn cycle_of(order: &Order) -> Option<u16>
    ensures first { MatchOption result (HasNoCycle (IsAtOrBelow order.now) order.now.count)
        (IsFirstOnCycle (IsAtOrBelow order.now) order.now.count) }
    ensures whole { IsOrder order.now }
{
    for a in 0..order.count() {
        if has_partner(order, a) {
            return Some(a);
        }
    }
    None
}
