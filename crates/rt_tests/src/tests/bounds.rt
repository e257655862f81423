// The bounds that lines say, and which bounds an order of constants says with them: no command asks for either.
use rt_lines::{Base, Direction, Dtv, Line, Order, Word};
use std::alloc::Global;
use std::test::Fail;

// A variable without letters.
fn bare(alloc: Global) -> Dtv {
    Dtv {
        base: Base::Outer(0),
        word: Word::empty(alloc),
    }
}

// Whether a line says that the constant is a lower bound.
fn is_low(line: &Line, constant: u16) -> bool {
    match line.bound() {
        Some((Direction::Lower, k, _)) => k == constant,
        Some((Direction::Upper, _, _)) | None => false,
    }
}

// Whether a line says that the constant is an upper bound.
fn is_up(line: &Line, constant: u16) -> bool {
    match line.bound() {
        Some((Direction::Upper, k, _)) => k == constant,
        Some((Direction::Lower, _, _)) | None => false,
    }
}

#[test]
fn bounds_have_a_side_and_a_constant(rt: HostRuntime) -> Result<(), Fail> {
    let alloc = rt.alloc();
    assert!(rt; is_low(&Line::Low(3, bare(alloc)), 3));
    assert!(rt; is_up(&Line::Up(bare(alloc), 4), 4));
    assert!(rt; Line::Var(bare(alloc)).bound().is_none());
    Ok(())
}

#[test]
fn a_lower_bound_admits_what_is_below_it(rt: HostRuntime) -> Result<(), Fail> {
    let mut order = Order::flat(rt.alloc(), 2)?;
    order.add(0, 1);
    assert!(rt; order.admits(Direction::Lower, 1, 0));
    assert!(rt; !order.admits(Direction::Lower, 0, 1));
    assert!(rt; order.admits(Direction::Upper, 0, 1));
    assert!(rt; !order.admits(Direction::Upper, 1, 0));
    Ok(())
}
