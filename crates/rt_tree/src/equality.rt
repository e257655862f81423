// Whether two trees have the same words and marks.
ghost use Rattle.std.specs.Prelude.{◌≡◌, ℕ, All, ◌+◌, ◌<◌, ◌↔◌, ◌≤◌, IfOk, IsTrue, length, map, slice_index};
ghost use Rattle.std.specs.List.{AllByRecursion};
ghost use Rattle.rt_tree.specs.Trees.{AreLike, AreSame, node_at, marks_of, IsTree};
ghost use Rattle.rt_tree.specs.Pairs.{both, root_of, shifted_edges, IsFound, IsFoundOf, IsFoundOfAll, AreClasses, renamed_class};

use crate::spreading::spread;
use crate::tree::Tree;
use rt_base::Memory;
use rt_lines::Label;
use std::alloc::Global;
use std::marker::Model;

/// Room for comparing two trees, which contracts see as the numbers of nodes that it was made for.
#[derive(Drop)]
pub struct Work {
    first: u32,
    second: u32,
    // The class of each node of both trees.
    class: Vec<usize>,
    // The next node of the ring that the nodes of one class make.
    next: Vec<usize>,
    // How many nodes a class has.
    size: Vec<usize>,
    // Pairs of nodes whose edges are still to be gone through.
    todo: Vec<(usize, usize)>,
}

impl Model for Work {
    ghost use Rattle.std.specs.Prelude.{◌≡◌, ◌+◌, length};
    ghost use Rattle.rt_tree.specs.Inside.Rooms.{Room};

    ghost Value = { Room };

    ghost view = { λ w. record { first = w.first; second = w.second } };

    ghost invariant = { λ w. (length w.class.items ≡ w.first + w.second) × (length w.next.items ≡ w.first + w.second) ×
        (length w.size.items ≡ w.first + w.second) × (length w.todo.items ≡ w.first + w.second) };
}

impl Work {
    /// Room for trees of so many nodes. The error is out of memory.
    pub fn new(alloc: Global, a: u32, b: u32) -> Result<Work, Memory>
        ensures first { IfOk result (λ work. work.first ≡ a) }
        ensures second { IfOk result (λ work. work.second ≡ b) }
    {
        let count = a as usize + b as usize;
        Ok(Work {
            first: a,
            second: b,
            class: places(alloc, count)?,
            next: places(alloc, count)?,
            size: places(alloc, count)?,
            todo: pairs(alloc, count)?,
        })
    }
}

// A place for each of so many nodes.
fn places(alloc: Global, count: usize) -> Result<Vec<usize>, Memory>
    ensures { IfOk result (λ places. length places.items ≡ count) }
{
    let mut places = Vec::with_capacity(alloc, count)?;
    for _ in 0..count {
        places.push(0)?;
    }
    Ok(places)
}

// A place for a pair of nodes for each of so many nodes.
fn pairs(alloc: Global, count: usize) -> Result<Vec<(usize, usize)>, Memory>
    ensures { IfOk result (λ pairs. length pairs.items ≡ count) }
{
    let mut pairs = Vec::with_capacity(alloc, count)?;
    for _ in 0..count {
        pairs.push((0, 0))?;
    }
    Ok(pairs)
}

/// What is found of two nodes of which it is asked whether they are alike.
#[derive(Clone, Copy)]
pub enum Found {
    /// Their marks and labels are equal, and their edges lead to nodes of one class.
    Same,
    /// Their marks or their labels differ.
    Unlike,
    /// An edge leads to two nodes of two classes.
    Apart(usize, usize),
}

// The number of the root of the tree that a node is of.
pub(crate) fn root_in(a: &Tree, x: usize) -> usize
    ensures { result ≡ root_of (length a.now) x }
{
    let count = a.size() as usize;
    if x < count { 0 } else { count }
}

// The marks of a node of either tree.
fn mark_in(a: &Tree, b: &Tree, x: usize) -> (u16, u16)
    requires second { IsTree b.now }
    requires x { x < length a.now + length b.now }
    ensures { result ≡ marks_of (node_at (both a.now b.now) x) }
{
    let count = a.size() as usize;
    if x < count {
        a.mark(x as u32)
    } else {
        b.mark((x - count) as u32)
    }
}

// The edges of a node of either tree, as they stand there.
pub(crate) fn edges_in<'a>(a: &'a Tree, b: &'a Tree, x: usize) -> &'a [(Label, u32)]
    requires second { IsTree b.now }
    requires x { x < length a.now + length b.now }
    ensures { shifted_edges (root_of (length a.now) x) result.now ≡ (node_at (both a.now b.now) x).edges }
{
    let count = a.size() as usize;
    if x < count {
        a.edges(x as u32)
    } else {
        b.edges((x - count) as u32)
    }
}

// What is found of the edges of two nodes. Ends count from the number of a root on.
fn compare_edges(
    xs: &[(Label, u32)],
    i: usize,
    ys: &[(Label, u32)],
    j: usize,
    class: &[usize],
) -> Found
    requires first { AllByRecursion (λ edge. i + edge.1 < length class.now) xs.now }
    requires second { AllByRecursion (λ edge. j + edge.1 < length class.now) ys.now }
    ensures { IsFound class.now xs.now i ys.now j result }
{
    if xs.len() != ys.len() {
        return Found::Unlike;
    }
    for k in 0..xs.len() {
        if xs[k].0 != ys[k].0 {
            return Found::Unlike;
        }
        let m = i + xs[k].1 as usize;
        let n = j + ys[k].1 as usize;
        if class[m] != class[n] {
            return Found::Apart(m, n);
        }
    }
    Found::Same
}

// What is found of two nodes of either tree.
fn compare(a: &Tree, b: &Tree, class: &[usize], x: usize, y: usize) -> Found
    requires first { IsTree a.now }
    requires second { IsTree b.now }
    requires class { length class.now ≡ length a.now + length b.now }
    requires x { x < length a.now + length b.now }
    requires y { y < length a.now + length b.now }
    ensures { IsFoundOf class.now (both a.now b.now) x y result }
{
    if mark_in(a, b, x) != mark_in(a, b, y) {
        return Found::Unlike;
    }
    let i = root_in(a, x);
    let j = root_in(a, y);
    compare_edges(edges_in(a, b, x), i, edges_in(a, b, y), j, class)
}

// What is found of all nodes, each beside the one that names its class.
fn compare_all(a: &Tree, b: &Tree, class: &[usize]) -> Found
    requires first { IsTree a.now }
    requires second { IsTree b.now }
    requires classes { AreClasses (both a.now b.now) (length a.now) class.now }
    ensures { IsFoundOfAll class.now (both a.now b.now) (length a.now) result }
{
    let root = a.size() as usize;
    if class[0] != class[root] {
        return Found::Apart(0, root);
    }
    for x in 0..class.len() {
        match compare(a, b, class, x, class[x]) {
            Found::Same => {}
            Found::Unlike => return Found::Unlike,
            Found::Apart(m, n) => return Found::Apart(m, n),
        }
    }
    Found::Same
}

// Renames the greater of two nodes' classes into the lesser.
fn rename(class: &mut [usize], i: usize, j: usize)
    requires first { i < length class.old }
    requires second { j < length class.old }
    ensures { class.new ≡ map (renamed_class (slice_index class.old i) (slice_index class.old j)) class.old }
{
    let lesser = class[i].min(class[j]);
    let greater = class[i].max(class[j]);
    for c in class.iter_mut() {
        if *c == greater {
            *c = lesser;
        }
    }
}

// Whether the roots are alike: classes are made one until all is closed, or two nodes are found that can't be alike.
fn settle(a: &Tree, b: &Tree, class: &mut [usize]) -> bool
    requires first { IsTree a.now }
    requires second { IsTree b.now }
    requires classes { AreClasses (both a.now b.now) (length a.now) class.old }
    ensures { IsTrue result ↔ AreLike (both a.now b.now) 0 (length a.now) }
{
    let mut found = compare_all(a, b, class);
    while let Found::Apart(i, j) = found {
        rename(class, i, j);
        found = compare_all(a, b, class);
    }
    matches!(found, Found::Same)
}

// Gives each node a class of its own, or a ring.
fn reset(class: &mut [usize])
    ensures own { (x : ℕ) → x < length class.new → slice_index class.new x ≡ x }
    ensures within { All (λ x. x < length class.new) class.new }
{
    for x in 0..class.len() {
        class[x] = x;
    }
}

// Sets all sizes to 1.
fn reset_sizes(size: &mut [usize]) {
    for x in 0..size.len() {
        size[x] = 1;
    }
}

// Sets all pairs to the root of the first tree beside itself.
fn reset_pairs(todo: &mut [(usize, usize)])
    ensures { All (λ pair. (pair.0 ≡ 0) × (pair.1 ≡ 0)) todo.new }
{
    for x in 0..todo.len() {
        todo[x] = (0, 0);
    }
}

// Whether two trees have the same words and marks, with places for the nodes of both.
fn equal_in(
    a: &Tree,
    b: &Tree,
    class: &mut [usize],
    next: &mut [usize],
    size: &mut [usize],
    todo: &mut [(usize, usize)],
) -> bool
    requires class { length a.now + length b.now ≤ length class.old }
    requires next { length a.now + length b.now ≤ length next.old }
    requires size { length a.now + length b.now ≤ length size.old }
    requires todo { length a.now + length b.now ≤ length todo.old }
    ensures { IsTrue result ↔ AreSame a.now b.now }
{
    let count = a.size() as usize + b.size() as usize;
    let class = &mut class[..count];
    let next = &mut next[..count];
    let size = &mut size[..count];
    let todo = &mut todo[..count];
    reset(class);
    reset(next);
    reset_sizes(size);
    reset_pairs(todo);
    spread(a, b, class, next, size, todo);
    settle(a, b, class)
}

/// Whether two trees have the same words and marks. It takes no memory beside the room.
pub fn equal(a: &Tree, b: &Tree, work: &mut Work) -> bool
    requires first { length a.now ≤ work.old.first }
    requires second { length b.now ≤ work.old.second }
    ensures same { IsTrue result ↔ AreSame a.now b.now }
    ensures room { work.new ≡ work.old }
{
    equal_in(
        a,
        b,
        &mut work.class,
        &mut work.next,
        &mut work.size,
        &mut work.todo,
    )
}
