// Ways between named variables.
ghost use Rattle.std.specs.Prelude.{◌≡◌, ◌<◌, [], IfOk, length, slice_index_or};
ghost use Rattle.rt_ways.specs.Nets.{AreWaysOf, IsSized, class_at};
ghost use Rattle.rt_ways.specs.Pushes.{step_of};
ghost use Rattle.rt_ways.specs.Inside.Frames.{AreAbove, IsFrameOf, net_of};

use crate::arcs::{arcs_of, entry};
use crate::closing::{close, row as found_row, step};
use crate::frame::Frame;
use crate::spreading::row;
use crate::turning::turned;
use indexmap::IndexMap;
use rt_base::{Memory, Sequence};
use rt_lines::{Label, Line};
use rt_named::{Named, Numbers};
use std::alloc::Global;
use std::marker::Model;

/// The variables that lines name, by number, and which ways lead between them: the class of each, of those that lie below each
/// other for words with a place that can be read and written through; and which lie below it, and which above, for words
/// without such a place that keep the order. Contracts see these as rows of numbers.
#[derive(Drop)]
pub struct Ways {
    named: Named,
    steps: IndexMap<(u32, Label), u32>,
    classes: Vec<u32>,
    behind: IndexMap<(u32, Label), u32>,
    above: Vec<Numbers>,
    below: Vec<Sequence<u32>>,
}

impl Model for Ways {
    ghost use Rattle.rt_ways.specs.Nets.{IsSized, Net};

    ghost Value = { Net };

    ghost view = { λ w. record {
      named = w.named;
      steps = w.steps.entries;
      classes = w.classes.items;
      behind = w.behind.entries;
      above = w.above.items;
      below = w.below.items;
    } };

    ghost invariant = { λ w. IsSized (record {
      named = w.named;
      steps = w.steps.entries;
      classes = w.classes.items;
      behind = w.behind.entries;
      above = w.above.items;
      below = w.below.items;
    }) };
}

// For each number those above it, by the first arcs.
fn above_of(alloc: Global, frame: &Frame, lines: &[Line]) -> Result<Vec<Numbers>, Memory>
    requires { IsFrameOf lines.now frame.now }
    ensures { IfOk result (λ above. AreAbove lines.now frame.now above.items) }
{
    let arcs = arcs_of(alloc, frame, lines)?;
    let above = close(alloc, &frame.named, &frame.steps, arcs)?;
    Ok(above)
}

impl Ways {
    /// The ways of lines. The error is out of memory.
    pub fn of(alloc: Global, lines: &[Line]) -> Result<Ways, Memory>
        ensures { IfOk result (AreWaysOf lines.now) }
    {
        let frame = Frame::of(alloc, lines)?;
        let above = above_of(alloc, &frame, lines)?;
        let below = turned(alloc, &above)?;
        Ok(Ways::joined(frame, above, below))
    }

    // The ways of these parts.
    fn joined(frame: Frame, above: Vec<Numbers>, below: Vec<Sequence<u32>>) -> Ways
        requires { IsSized (net_of frame above.items below.items) }
        ensures { result ≡ net_of frame above.items below.items }
    {
        Ways {
            named: frame.named,
            steps: frame.steps,
            classes: frame.classes,
            behind: frame.behind,
            above,
            below,
        }
    }

    /// The variables. It takes no memory.
    pub fn named(&self) -> &Named
        ensures named { result.now ≡ self.now.named }
        ensures sized { IsSized self.now }
    {
        &self.named
    }

    /// The class of a number. It takes no memory.
    pub fn class(&self, number: u32) -> u32
        requires { number < length self.now.classes }
        ensures { result ≡ class_at self.now number }
    {
        entry(&self.classes, number)
    }

    /// The numbers above a number, with itself, the nearest first. It takes no memory.
    pub fn above(&self, number: u32) -> &[u32]
        ensures { result.now ≡ slice_index_or self.now.above number [] }
    {
        found_row(&self.above, number)
    }

    /// The numbers below a number, with itself. It takes no memory.
    pub fn below(&self, number: u32) -> &[u32]
        ensures { result.now ≡ slice_index_or self.now.below number [] }
    {
        row(&self.below, number)
    }

    /// The number with a letter more, if that is named. It takes no memory.
    pub fn step(&self, number: u32, label: Label) -> Option<u32>
        ensures { result ≡ step_of self.now.steps number label }
    {
        step(&self.steps, number, label)
    }

    /// A number behind a letter of one of the class, if one is named. It takes no memory.
    pub fn behind(&self, class: u32, label: Label) -> Option<u32>
        ensures number { result ≡ step_of self.now.behind class label }
        ensures sized { IsSized self.now }
    {
        step(&self.behind, class, label)
    }
}
