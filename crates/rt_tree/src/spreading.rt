// Classes made one by a list of what is left to do: the fast part of comparing two trees. What it leaves, the closing part does.
ghost use Rattle.std.specs.Prelude.{◌≡◌, ℕ, ◌<◌, ◌≤◌, All, length};
ghost use Rattle.rt_tree.specs.Trees.{Nodes, IsTree};
ghost use Rattle.rt_tree.specs.Pairs.{both, AreClasses, AreToFollow, Follows};

use crate::equality::{edges_in, root_in};
use crate::tree::Tree;

// Renames a class into another at the nodes of a ring, from one of them on.
fn rename_ring(class: &mut [usize], next: &[usize], start: usize, from: usize, to: usize)
    requires start { start < length class.old }
    requires next { All (λ x. x < length class.old) next.now }
    requires each { length next.now ≡ length class.old }
    ensures { (t : Nodes) → (root : ℕ) → AreClasses t root class.old → to < length t →
        Follows t root from to → AreClasses t root class.new }
{
    let mut x = start;
    for _ in 0..class.len() {
        if class[x] == from {
            class[x] = to;
        }
        x = next[x];
        if x == start {
            return;
        }
    }
}

// Makes the classes of two nodes one: the one with fewer nodes is renamed into the other, and their rings become one.
fn join(class: &mut [usize], next: &mut [usize], size: &mut [usize], i: usize, j: usize)
    requires i { i < length class.old }
    requires j { j < length class.old }
    requires next { All (λ x. x < length class.old) next.old }
    requires each { length next.old ≡ length class.old }
    requires size { length size.old ≡ length class.old }
    requires classes { (t : Nodes) × (root : ℕ) × AreClasses t root class.old }
    ensures classes { (t : Nodes) → (root : ℕ) → AreClasses t root class.old → Follows t root i j → AreClasses t root class.new }
    ensures next { All (λ x. x < length class.new) next.new }
{
    let p = class[i];
    let q = class[j];
    let sum = size[p].saturating_add(size[q]);
    if size[p] < size[q] {
        rename_ring(class, next, i, p, q);
        size[q] = sum;
    } else {
        rename_ring(class, next, j, q, p);
        size[p] = sum;
    }
    next.swap(i, j);
}

// Makes the classes of two nodes one, unless they are one or there is no room to note that. The result is how many pairs are
// noted.
fn enter(
    class: &mut [usize],
    next: &mut [usize],
    size: &mut [usize],
    todo: &mut [(usize, usize)],
    top: usize,
    pair: (usize, usize),
) -> usize
    requires first { pair.0 < length class.old }
    requires second { pair.1 < length class.old }
    requires next { All (λ x. x < length class.old) next.old }
    requires each { length next.old ≡ length class.old }
    requires size { length size.old ≡ length class.old }
    requires classes { (t : Nodes) × (root : ℕ) × AreClasses t root class.old }
    requires top { top ≤ length todo.old }
    ensures classes { (t : Nodes) → (root : ℕ) → AreClasses t root class.old → Follows t root pair.0 pair.1 →
        AreClasses t root class.new }
    ensures next { All (λ x. x < length class.new) next.new }
    ensures todo { (t : Nodes) → (root : ℕ) → AreClasses t root class.old → Follows t root pair.0 pair.1 →
        AreToFollow t root todo.old → AreToFollow t root todo.new }
    ensures top { result ≤ length todo.new }
{
    if class[pair.0] == class[pair.1] {
        return top;
    }
    if top == todo.len() {
        return top;
    }
    join(class, next, size, pair.0, pair.1);
    todo[top] = pair;
    top + 1
}

// Makes the classes of the ends of the edges of two nodes one.
fn spread_edges(
    a: &Tree,
    b: &Tree,
    pair: (usize, usize),
    class: &mut [usize],
    next: &mut [usize],
    size: &mut [usize],
    todo: &mut [(usize, usize)],
    noted: usize,
) -> usize
    requires first { IsTree a.now }
    requires second { IsTree b.now }
    requires pair { (pair.0 < length (both a.now b.now)) ×
        (pair.1 < length (both a.now b.now)) × Follows (both a.now b.now) (length a.now) pair.0 pair.1 }
    requires classes { AreClasses (both a.now b.now) (length a.now) class.old }
    requires next { All (λ x. x < length class.old) next.old }
    requires each { length next.old ≡ length class.old }
    requires size { length size.old ≡ length class.old }
    requires todo { AreToFollow (both a.now b.now) (length a.now) todo.old }
    requires noted { noted ≤ length todo.old }
    ensures classes { AreClasses (both a.now b.now) (length a.now) class.new }
    ensures next { All (λ x. x < length class.new) next.new }
    ensures todo { AreToFollow (both a.now b.now) (length a.now) todo.new }
    ensures noted { result ≤ length todo.new }
{
    let i = root_in(a, pair.0);
    let j = root_in(a, pair.1);
    let xs = edges_in(a, b, pair.0);
    let ys = edges_in(a, b, pair.1);
    let mut top = noted;
    for k in 0..xs.len().min(ys.len()) {
        let ends = (i + xs[k].1 as usize, j + ys[k].1 as usize);
        top = enter(class, next, size, todo, top, ends);
    }
    top
}

// Makes one the classes of the roots, and then those of the ends of edges of nodes that were made one.
pub(crate) fn spread(
    a: &Tree,
    b: &Tree,
    class: &mut [usize],
    next: &mut [usize],
    size: &mut [usize],
    todo: &mut [(usize, usize)],
)
    requires first { IsTree a.now }
    requires second { IsTree b.now }
    requires classes { AreClasses (both a.now b.now) (length a.now) class.old }
    requires next { All (λ x. x < length class.old) next.old }
    requires each { length next.old ≡ length class.old }
    requires size { length size.old ≡ length class.old }
    requires todo { AreToFollow (both a.now b.now) (length a.now) todo.old }
    ensures { AreClasses (both a.now b.now) (length a.now) class.new }
{
    let root = a.size() as usize;
    let mut top = enter(class, next, size, todo, 0, (0, root));
    for _ in 0..todo.len() {
        if top == 0 {
            return;
        }
        top -= 1;
        let pair = todo[top];
        top = spread_edges(a, b, pair, class, next, size, todo, top);
    }
}
