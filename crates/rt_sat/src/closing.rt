// Edges with all that is pushed from their ways.
ghost use Rattle.std.specs.Prelude.{◌≡◌, ◌⊎◌, ℕ, [], true, length, slice_index_or, IfOk, OnOk};
ghost use Rattle.rt_lines.specs.declared.label.Label.{Label as Letter};
ghost use Rattle.rt_sat.specs.declared.state.State.{State as Place};
ghost use Rattle.rt_sat.specs.Numbered.{AreDistinct};
ghost use Rattle.rt_sat.specs.Pushes.{is_done, pushed_of, AreChildren, AreDone, AreGrown, AreIndexed, IsChildOf};
ghost use Rattle.rt_sat.specs.Pushes.{IsClosedBy, IsClosedIn, IsClosing, IsStill};

use crate::checking::checked;
use crate::hints::{Hinted, hints};
use crate::layers::Layers;
use crate::pushing::{Frame, flag, push_below};
use crate::reached::Reached;
use crate::spreading::spread;
use crate::state::{Edge, State};
use rt_base::{Memory, Sequence};
use rt_named::{Named, Origin};
use std::alloc::Global;

// For each variable the numbers of those with a letter more.
pub(crate) fn children(alloc: Global, named: &Named) -> Result<Vec<Sequence<u32>>, Memory>
    requires { AreDistinct named.now }
    ensures { IfOk result (λ children. AreChildren named.now children.items) }
{
    let mut children = no_numbers(alloc, named.len())?;
    for number in 0..named.len() {
        let parent = match named.origin(number as u32) {
            Origin::Longer(parent, _) => parent,
            Origin::Bare(_) => continue,
        };
        children[parent as usize].push(number as u32)?;
    }
    Ok(children)
}

// So many lists without numbers.
pub(crate) fn no_numbers(alloc: Global, count: usize) -> Result<Vec<Sequence<u32>>, Memory>
    ensures length { IfOk result (λ none. length none.items ≡ count) }
    ensures none { IfOk result (λ none. (v : ℕ) → slice_index_or none.items v [] ≡ []) }
{
    let mut none = Vec::new(alloc);
    while none.len() < count {
        none.push(Sequence::new(alloc))?;
    }
    Ok(none)
}

// The edges, and behind them what is pushed from ways along edges, as far as no way along pushed edges is as short: all
// counts where they matter, and nought elsewhere.
pub(crate) fn closed(alloc: Global, frame: &Frame, lines: Vec<Edge>) -> Result<Vec<Edge>, Memory>
    requires children { AreChildren frame.now.named frame.now.children.items }
    requires distinct { AreDistinct frame.now.named }
    requires nodes { length frame.now.nodes.items ≡ length frame.now.named }
    ensures { IfOk result (λ edges. IsClosing frame.now.named frame.now.flips.items frame.now.matters.items lines.items edges.items) }
{
    let hinted = hints(alloc, frame, &lines)?;
    let Hinted { edges, family } = hinted;
    let mut layers = Layers::new(alloc, lines, edges)?;
    let mut done = checked(alloc, frame, &layers, family.as_ref())?;
    loop {
        let before = layers.edges.len();
        done = pass(alloc, frame, &mut layers, &done)?;
        if layers.edges.len() == before {
            let Layers { edges, .. } = layers;
            return Ok(edges);
        }
        spread(&layers.edges, before, &mut done);
    }
}

// Puts in what is pushed from ways along edges, as far as no way along the pushed ones is as short. Each search goes along
// the edges that there are by then, so what is put in behind it is left to another pass. Variables that are done are passed
// over. Gives those that are done from then on, as far as ways go along the edges that there were before.
pub(crate) fn pass(
    alloc: Global,
    frame: &Frame,
    layers: &mut Layers,
    done: &[bool],
) -> Result<Vec<bool>, Memory>
    requires children { AreChildren frame.now.named frame.now.children.items }
    requires distinct { AreDistinct frame.now.named }
    requires indexed { AreIndexed layers.old }
    requires done { AreDone frame.now.named frame.now.flips.items frame.now.matters.items layers.old.edges.items
        (pushed_of layers.old) done.now }
    ensures grown { OnOk result (AreGrown frame.now.named frame.now.flips.items layers.old layers.new) }
    ensures all { OnOk result (IsStill layers.old layers.new →
        IsClosedBy frame.now.named frame.now.flips.items frame.now.matters.items layers.old.edges.items (pushed_of layers.old)) }
    ensures done { IfOk result (λ next. AreDone frame.now.named frame.now.flips.items frame.now.matters.items
        layers.old.edges.items (pushed_of layers.new) next.items) }
{
    let mut reached = Reached::new(alloc);
    let mut known = Reached::new(alloc);
    let mut next = Vec::new(alloc);
    for number in 0..frame.named.len() {
        let yes = push_open(
            alloc,
            frame,
            layers,
            done,
            number as u32,
            &mut reached,
            &mut known,
        )?;
        next.push(yes)?;
    }
    Ok(next)
}

// Puts in what is pushed from ways of a variable, if it isn't done. Whether it was, or nothing was put in.
fn push_open(
    alloc: Global,
    frame: &Frame,
    layers: &mut Layers,
    done: &[bool],
    number: u32,
    reached: &mut Reached,
    known: &mut Reached,
) -> Result<bool, Memory>
    requires children { AreChildren frame.now.named frame.now.children.items }
    requires distinct { AreDistinct frame.now.named }
    requires indexed { AreIndexed layers.old }
    ensures grown { OnOk result (AreGrown frame.now.named frame.now.flips.items layers.old layers.new) }
    ensures still { IfOk result (λ yes. IsStill layers.old layers.new → yes ≡ true) }
    ensures done { IfOk result (λ yes. yes ≡ true → (is_done done.now number ≡ true) ⊎ ((child parent : Place) (l : Letter) →
        parent.variable ≡ number → IsChildOf frame.now.named child parent l →
        IsClosedIn frame.now.named frame.now.flips.items frame.now.matters.items layers.old child parent l)) }
{
    if flag(done, number) {
        return Ok(true);
    }
    let before = layers.edges.len();
    push_number(alloc, frame, layers, number, reached, known)?;
    Ok(layers.edges.len() == before)
}

// Puts in what is pushed from ways of a variable, of both signs.
fn push_number(
    alloc: Global,
    frame: &Frame,
    layers: &mut Layers,
    number: u32,
    reached: &mut Reached,
    known: &mut Reached,
) -> Result<(), Memory>
    requires children { AreChildren frame.now.named frame.now.children.items }
    requires distinct { AreDistinct frame.now.named }
    requires indexed { AreIndexed layers.old }
    ensures grown { OnOk result (AreGrown frame.now.named frame.now.flips.items layers.old layers.new) }
    ensures done { OnOk result (IsStill layers.old layers.new → (child parent : Place) (l : Letter) → parent.variable ≡ number →
        IsChildOf frame.now.named child parent l →
        IsClosedIn frame.now.named frame.now.flips.items frame.now.matters.items layers.old child parent l) }
{
    let forth = State {
        variable: number,
        contra: false,
    };
    let back = State {
        variable: number,
        contra: true,
    };
    push_below(alloc, frame, layers, forth, reached, known)?;
    push_below(alloc, frame, layers, back, reached, known)?;
    Ok(())
}
