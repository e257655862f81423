// Trees of the documents: which of them are least, and which are equal.
use rt_base::Memory;
use rt_lines::{Label, Loc};
use rt_tree::{Tree, Work, equal, minimal};
use std::alloc::Global;
use std::test::Fail;

// A root with edges to two leaves, of which the second has this lower mark.
fn two_leaves(alloc: Global, low: u16) -> Result<Tree, Memory> {
    let mut tree = Tree::new(alloc, 0, 1)?;
    tree.grow(0, &Label::In(Loc::Arg(0)), 0, 1)?;
    tree.grow(0, &Label::Out(0), low, 1)?;
    Ok(tree)
}

// Whether two trees have the same words and marks.
fn are_equal(alloc: Global, a: &Tree, b: &Tree) -> Result<bool, Memory> {
    let mut work = Work::new(alloc, a.size(), b.size())?;
    Ok(equal(a, b, &mut work))
}

#[test]
fn equal_leaves_are_one(rt: HostRuntime) -> Result<(), Fail> {
    let tree = two_leaves(rt.alloc(), 0)?;
    let least = minimal(rt.alloc(), &tree)?;
    assert_eq!(rt; least.size(), 2);
    assert!(rt; are_equal(rt.alloc(), &tree, &least)?);
    Ok(())
}

#[test]
fn other_leaves_are_two(rt: HostRuntime) -> Result<(), Fail> {
    let tree = two_leaves(rt.alloc(), 0)?;
    let other = two_leaves(rt.alloc(), 1)?;
    let least = minimal(rt.alloc(), &other)?;
    assert_eq!(rt; least.size(), 3);
    assert!(rt; are_equal(rt.alloc(), &other, &least)?);
    assert!(rt; !are_equal(rt.alloc(), &tree, &least)?);
    Ok(())
}
