// Least counts between variables: no command writes them.
use rt_base::Memory;
use rt_lines::{Base, Dtv, Label, Line, Variance, Word};
use rt_sat::{Sat, saturate};
use std::alloc::Global;
use std::test::Fail;

// A variable behind pointer letters, a store where the flag is set.
fn behind(alloc: Global, number: u32, stores: &[bool]) -> Result<Dtv, Memory> {
    let mut word = Word::empty(alloc);
    for store in stores {
        if *store {
            word.push(Label::Store)?;
        } else {
            word.push(Label::Load)?;
        }
    }
    Ok(Dtv {
        base: Base::Outer(number),
        word,
    })
}

// A variable without letters.
fn bare(alloc: Global, number: u32) -> Dtv {
    Dtv {
        base: Base::Outer(number),
        word: Word::empty(alloc),
    }
}

// The first result of a variable.
fn first(alloc: Global, number: u32) -> Result<Dtv, Memory> {
    let mut word = Word::empty(alloc);
    word.push(Label::Out(0))?;
    Ok(Dtv {
        base: Base::Outer(number),
        word,
    })
}

// The second result of a variable.
fn second(alloc: Global, number: u32) -> Result<Dtv, Memory> {
    let mut word = Word::empty(alloc);
    word.push(Label::Out(1))?;
    Ok(Dtv {
        base: Base::Outer(number),
        word,
    })
}

// The weight between two variables, where both are named.
#[tactic(auto, using(std::proofs::lemmas::Option::slice_get_within))]
fn weight(sat: &Sat, x: &Dtv, x_sign: Variance, y: &Dtv, y_sign: Variance) -> Option<Option<u32>> {
    let p = sat.index(x)?;
    let q = sat.index(y)?;
    Some(sat.weight(p, x_sign, q, y_sign))
}

// `var` of x0 behind each two pointer letters, and `x1 <= x0`.
fn two_letters(alloc: Global) -> Result<Vec<Line>, Memory> {
    let mut lines = Vec::new(alloc);
    lines.push(Line::Var(behind(alloc, 0, &[false, false])?))?;
    lines.push(Line::Var(behind(alloc, 0, &[false, true])?))?;
    lines.push(Line::Var(behind(alloc, 0, &[true, false])?))?;
    lines.push(Line::Var(behind(alloc, 0, &[true, true])?))?;
    lines.push(Line::Sub(bare(alloc, 1), bare(alloc, 0)))?;
    Ok(lines)
}

// x0 can be read and written through, x1 has its shape, and `x1.load <= x0.store`.
fn one_shape(alloc: Global) -> Result<Vec<Line>, Memory> {
    let mut lines = Vec::new(alloc);
    lines.push(Line::Var(behind(alloc, 0, &[false])?))?;
    lines.push(Line::Var(behind(alloc, 0, &[true])?))?;
    lines.push(Line::Same(bare(alloc, 0), bare(alloc, 1)))?;
    lines.push(Line::Sub(behind(alloc, 1, &[false])?, behind(alloc, 0, &[true])?))?;
    Ok(lines)
}

// `x1 <= x0`, and so often two more variables: from the first of them a way goes to the second twice between the two before,
// behind their first results and behind their second ones. So the count from one to the other is twice that of the two before.
fn doubled(alloc: Global, doublings: u8) -> Result<Vec<Line>, Memory> {
    let mut lines = Vec::new(alloc);
    lines.push(Line::Sub(bare(alloc, 1), bare(alloc, 0)))?;
    for i in 0..u32::from(doublings) {
        lines.push(Line::Sub(bare(alloc, 2 * i + 2), first(alloc, 2 * i)?))?;
        lines.push(Line::Sub(first(alloc, 2 * i + 1)?, second(alloc, 2 * i)?))?;
        lines.push(Line::Sub(second(alloc, 2 * i + 1)?, bare(alloc, 2 * i + 3)))?;
    }
    Ok(lines)
}

// The same, but the way goes to the second from what turns the order round before the first, and turns once between. So where
// a count is m from what turns the order round, to what doesn't, it is m + 1 to what does, and that of the next two is the sum.
fn turned(alloc: Global, doublings: u8) -> Result<Vec<Line>, Memory> {
    let mut lines = Vec::new(alloc);
    lines.push(Line::Sub(bare(alloc, 1), bare(alloc, 0)))?;
    for i in 0..u32::from(doublings) {
        lines.push(Line::Sub(first(alloc, 2 * i)?, bare(alloc, 2 * i + 2)))?;
        lines.push(Line::Sub(second(alloc, 2 * i)?, first(alloc, 2 * i + 1)?))?;
        lines.push(Line::Sub(second(alloc, 2 * i + 1)?, bare(alloc, 2 * i + 3)))?;
    }
    Ok(lines)
}

#[test]
fn variables_have_places_and_weights(rt: HostRuntime) -> Result<(), Fail> {
    let alloc = rt.alloc();
    let sat = saturate(alloc, &two_letters(alloc)?, &[])?;
    let x0 = bare(alloc, 0);
    let x1 = bare(alloc, 1);
    let deep = behind(alloc, 0, &[false, false])?;
    assert!(rt; sat.index(&x0) == Some(0));
    assert!(rt; sat.index(&deep) == Some(2));
    assert!(rt; sat.index(&x1) == Some(7));
    assert!(rt; sat.index(&behind(alloc, 1, &[false])?) == None);
    assert!(rt; weight(&sat, &x1, Variance::Co, &x0, Variance::Co) == Some(Some(0)));
    assert!(rt; weight(&sat, &x0, Variance::Contra, &x1, Variance::Contra) == Some(Some(0)));
    assert!(rt; weight(&sat, &x0, Variance::Contra, &x1, Variance::Co) == Some(Some(1)));
    assert!(rt; weight(&sat, &x0, Variance::Co, &x1, Variance::Co) == Some(Some(2)));
    assert!(rt; weight(&sat, &x0, Variance::Co, &deep, Variance::Co) == Some(None));
    Ok(())
}

#[test]
fn halves_keep_the_parity(rt: HostRuntime) -> Result<(), Fail> {
    let alloc = rt.alloc();
    let sat = saturate(alloc, &one_shape(alloc)?, &[])?;
    let store = behind(alloc, 0, &[true])?;
    let load = behind(alloc, 1, &[false])?;
    assert!(rt; weight(&sat, &store, Variance::Co, &load, Variance::Co) == Some(Some(2)));
    Ok(())
}

// The weight between the two variables that come with so many doublings.
fn doubled_weight(
    alloc: Global,
    sat: &Sat,
    doublings: u8,
    first_sign: Variance,
    second_sign: Variance,
) -> Option<Option<u32>> {
    let number = 2 * u32::from(doublings);
    let x = bare(alloc, number);
    let y = bare(alloc, number + 1);
    weight(sat, &x, first_sign, &y, second_sign)
}

#[test]
fn counts_go_on_past_32_bits(rt: HostRuntime) -> Result<(), Fail> {
    let alloc = rt.alloc();
    let sat = saturate(alloc, &doubled(alloc, 31)?, &[])?;
    for (doublings, count) in [(30, 2_147_483_648), (31, 4_294_967_295)] {
        let found = doubled_weight(alloc, &sat, doublings, Variance::Co, Variance::Co);
        assert!(rt; found == Some(Some(count)), "after {doublings}");
    }
    let sat = saturate(alloc, &turned(alloc, 32)?, &[])?;
    for (doublings, sign, count) in [
        (31, Variance::Co, 2_147_483_647),
        (31, Variance::Contra, 2_147_483_648),
        (32, Variance::Co, 4_294_967_295),
        (32, Variance::Contra, 4_294_967_295),
    ] {
        let found = doubled_weight(alloc, &sat, doublings, Variance::Contra, sign);
        assert!(rt; found == Some(Some(count)), "after {doublings}");
    }
    Ok(())
}
