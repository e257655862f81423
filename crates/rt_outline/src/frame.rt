// Nodes, of which some are made of others.
ghost use Rattle.std.specs.Prelude.{◌≡◌, ℕ, ◌<◌, ◌++◌, ◌∷◌, [], Option as Maybe, Some, IfOk, OnOk, length};
ghost use Rattle.rt_lines.specs.declared.label.Label.{Label as Letter};
ghost use Rattle.rt_outline.specs.Arcs.{HasArc, IsAdded};
ghost use Rattle.rt_outline.specs.Frames.{AreDistinct, AreOriginsOf, IsFrame, IsFresh, IsMade, IsSetAt, IsStepped, origin_of, step_of};

use crate::adding::add;
use crate::arc::Arc;
use crate::steps::Steps;
use rt_base::{Memory, Sequence};
use rt_lines::Label;
use rt_named::{Named, Origin};
use std::alloc::{AllocError, Global};

// How each node is made of another one with a letter, if it is, and which node is made of which; the arcs that leave each
// node, and the same arcs the other way.
#[derive(Drop)]
pub(crate) struct Frame {
    pub(crate) origins: Vec<Option<(u32, Label)>>,
    pub(crate) steps: Steps,
    pub(crate) arcs: Vec<Sequence<Arc>>,
    pub(crate) back: Vec<Sequence<Arc>>,
}

impl Frame {
    // The nodes of named variables, without arcs.
    pub(crate) fn of(alloc: Global, named: &Named) -> Result<Frame, Memory>
        requires { AreDistinct named.now }
        ensures frame { IfOk result (λ frame. IsFrame frame.origins.items frame.steps frame.arcs.items frame.back.items) }
        ensures origins { IfOk result (λ frame. AreOriginsOf named.now frame.origins.items) }
        ensures none { IfOk result (λ frame. (v w : ℕ) (line : Maybe ℕ) → HasArc frame.arcs.items v w line → ⊥) }
    {
        let mut frame = Frame {
            origins: Vec::new(alloc),
            steps: Steps::new(alloc),
            arcs: Vec::new(alloc),
            back: Vec::new(alloc),
        };
        for number in 0..named.len() {
            frame.enter(alloc, origin(named.origin(number as u32)))?;
        }
        Ok(frame)
    }

    // Adds a node.
    pub(crate) fn enter(
        &mut self,
        alloc: Global,
        origin: Option<(u32, Label)>,
    ) -> Result<u32, Memory>
        requires frame { IsFrame self.old.origins.items self.old.steps self.old.arcs.items self.old.back.items }
        requires fresh { IsFresh self.old.origins.items origin }
        requires below { (p : ℕ) (l : Letter) → origin ≡ Some (p, l) → p < length self.old.origins.items }
        ensures frame { OnOk result (IsFrame self.new.origins.items self.new.steps self.new.arcs.items self.new.back.items) }
        ensures node { IfOk result (λ node. node ≡ length self.old.origins.items) }
        ensures origins { OnOk result (self.new.origins.items ≡ self.old.origins.items ++ origin ∷ []) }
        ensures arcs { OnOk result (self.new.arcs.items ≡ self.old.arcs.items ++ [] ∷ []) }
    {
        if self.origins.len() >= u32::MAX as usize {
            return Err(AllocError);
        }
        let node = self.origins.len() as u32;
        set(&mut self.steps, origin, node)?;
        self.origins.push(origin)?;
        self.arcs.push(Sequence::new(alloc))?;
        self.back.push(Sequence::new(alloc))?;
        Ok(node)
    }

    // The node with a letter more.
    pub(crate) fn step(&self, node: u32, label: Label) -> Option<u32>
        ensures { result ≡ step_of self.now.steps node label }
    {
        self.steps.get(node, label)
    }

    // The node with a letter more, made where there is none.
    pub(crate) fn stepped(&mut self, alloc: Global, node: u32, label: Label) -> Result<u32, Memory>
        requires frame { IsFrame self.old.origins.items self.old.steps self.old.arcs.items self.old.back.items }
        requires node { node < length self.old.origins.items }
        ensures frame { OnOk result (IsFrame self.new.origins.items self.new.steps self.new.arcs.items self.new.back.items) }
        ensures made { IfOk result (λ next. IsMade self.new.origins.items next node label) }
        ensures more { OnOk result (IsStepped self.old.origins.items self.old.arcs.items self.new.origins.items self.new.arcs.items) }
    {
        if let Some(next) = self.step(node, label) {
            return Ok(next);
        }
        let next = self.enter(alloc, Some((node, label)))?;
        Ok(next)
    }

    // Adds an arc.
    pub(crate) fn join(&mut self, from: u32, arc: Arc) -> Result<(), Memory>
        requires frame { IsFrame self.old.origins.items self.old.steps self.old.arcs.items self.old.back.items }
        requires from { from < length self.old.origins.items }
        requires to { arc.to < length self.old.origins.items }
        ensures frame { OnOk result (IsFrame self.new.origins.items self.new.steps self.new.arcs.items self.new.back.items) }
        ensures origins { self.new.origins.items ≡ self.old.origins.items }
        ensures steps { self.new.steps ≡ self.old.steps }
        ensures added { OnOk result (IsAdded from arc self.old.arcs.items self.new.arcs.items) }
    {
        let turned = Arc {
            to: from,
            line: arc.line,
        };
        add(&mut self.arcs, from, arc)?;
        add(&mut self.back, arc.to, turned)?;
        Ok(())
    }
}

// Sets the step to a node, if it is made of another one.
fn set(steps: &mut Steps, origin: Option<(u32, Label)>, node: u32) -> Result<(), Memory>
    ensures { OnOk result ((p : ℕ) (l : Letter) → IsSetAt origin node p l steps.old steps.new) }
{
    match origin {
        Some((from, label)) => steps.insert(from, label, node),
        None => Ok(()),
    }
}

// What a variable is made of.
fn origin(origin: Origin) -> Option<(u32, Label)>
    ensures { result ≡ origin_of origin }
{
    match origin {
        Origin::Bare(_) => None,
        Origin::Longer(parent, label) => Some((parent, label)),
    }
}
