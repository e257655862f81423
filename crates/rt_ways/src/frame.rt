// The variables that lines name, with their nodes and classes.
ghost use Rattle.std.specs.Prelude.{◌≡◌, [], IfOk};
ghost use Rattle.rt_named.specs.Naming.{named as all_named};
ghost use Rattle.rt_ways.specs.Inside.Frames.{frame_of, IsClassing, IsFrameOf, IsNaming, IsShaping};

use crate::nodes::{behind_of, classes_of, nodes_of, steps_of};
use indexmap::IndexMap;
use rt_base::Memory;
use rt_lines::{Label, Line};
use rt_named::Named;
use rt_shape::Shape;
use std::alloc::Global;

// The variables that lines name; for a number and a letter the number with that letter more; the shape of the lines, and the node
// of each variable there; the class of each variable; for a class and a letter a number behind that letter.
#[derive(Drop)]
pub(crate) struct Frame {
    pub(crate) named: Named,
    pub(crate) steps: IndexMap<(u32, Label), u32>,
    pub(crate) shape: Shape,
    pub(crate) nodes: Vec<u32>,
    pub(crate) classes: Vec<u32>,
    pub(crate) behind: IndexMap<(u32, Label), u32>,
}

// The variables that lines name, and for a number and a letter the number with that letter more.
#[derive(Drop)]
struct Naming {
    named: Named,
    steps: IndexMap<(u32, Label), u32>,
}

impl Naming {
    // Those of lines.
    fn of(alloc: Global, lines: &[Line]) -> Result<Naming, Memory>
        ensures { IfOk result (IsNaming lines.now) }
    {
        let named = Named::of(alloc, lines, &[])?;
        let steps = steps_of(alloc, &named)?;
        Ok(Naming { named, steps })
    }
}

// The shape of lines, and the node of each variable there.
#[derive(Drop)]
struct Shaping {
    shape: Shape,
    nodes: Vec<u32>,
}

impl Shaping {
    // Those of lines and the variables that they name.
    fn of(alloc: Global, lines: &[Line], named: &Named) -> Result<Shaping, Memory>
        requires { named.now ≡ all_named lines.now [] }
        ensures { IfOk result (IsShaping lines.now named.now) }
    {
        let shape = rt_shape::of(alloc, lines)?;
        let nodes = nodes_of(alloc, named, &shape)?;
        Ok(Shaping { shape, nodes })
    }
}

// The class of each variable, and for a class and a letter a number behind that letter.
#[derive(Drop)]
struct Classing {
    classes: Vec<u32>,
    behind: IndexMap<(u32, Label), u32>,
}

impl Classing {
    // Those of lines and the variables that they name.
    fn of(alloc: Global, lines: &[Line], named: &Named) -> Result<Classing, Memory>
        requires { named.now ≡ all_named lines.now [] }
        ensures { IfOk result (IsClassing lines.now named.now) }
    {
        let classes = classes_of(alloc, lines, named)?;
        let behind = behind_of(alloc, named, &classes)?;
        Ok(Classing { classes, behind })
    }
}

impl Frame {
    // What is known of the variables that the lines name.
    pub(crate) fn of(alloc: Global, lines: &[Line]) -> Result<Frame, Memory>
        ensures { IfOk result (IsFrameOf lines.now) }
    {
        let naming = Naming::of(alloc, lines)?;
        let shaping = Shaping::of(alloc, lines, &naming.named)?;
        let classing = Classing::of(alloc, lines, &naming.named)?;
        Ok(Frame::joined(naming, shaping, classing))
    }

    // The frame of these parts.
    fn joined(naming: Naming, shaping: Shaping, classing: Classing) -> Frame
        ensures { result ≡ frame_of naming shaping classing }
    {
        Frame {
            named: naming.named,
            steps: naming.steps,
            shape: shaping.shape,
            nodes: shaping.nodes,
            classes: classing.classes,
            behind: classing.behind,
        }
    }
}
