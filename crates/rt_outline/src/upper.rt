// Outer arcs.
ghost use Rattle.std.specs.Prelude.{◌≡◌, ◌∷◌, ◌<◌, [], All, Contains, IfOk, IfSome, length};
ghost use Rattle.rt_lines.specs.declared.variable.Dtv.{Dtv as Variable};
ghost use Rattle.rt_lines.specs.Lines.{HasConstantsBelow};
ghost use Rattle.rt_lines.specs.Orders.{Below};
ghost use Rattle.rt_bridge.specs.Bounds.{HasLow, HasUp};
ghost use Rattle.rt_named.specs.Naming.{named};
ghost use Rattle.rt_outline.specs.Built.{AreNamed, AreOuterArcs, HasHubs, IsHubbed};
ghost use Rattle.rt_outline.specs.Equal.{AreOuterEquals};
ghost use Rattle.rt_outline.specs.Frames.{AreDistinct, IsFrame};
ghost use Rattle.rt_outline.specs.Lines.{HasBelow, HaveSameFlow, standing};
ghost use Rattle.rt_outline.specs.declared.led.Led.TheVariants.{No as Never, Yes as Always};

use crate::bounds::{Bound, above, below, lows, ups};
use crate::classes::classes;
use crate::closing::close;
use crate::confining::confined;
use crate::crossing::crossed;
use crate::entering::{enter_lines, enter_pointers, numbers};
use crate::frame::Frame;
use crate::grouping::Classes;
use crate::hubs::enter_hubs;
use crate::led::Led;
use crate::lower::copied;
use crate::resting::{Ground, tell};
use rt_base::Memory;
use rt_lines::{Dtv, Line, Order};
use rt_named::Named;
use rt_named::nodes::{flips, nodes};
use std::alloc::Global;
use std::marker::Model;

/// Arcs between the variables that lines name, and hubs, which lead wherever some of the lines say that one variable lies
/// below another.
#[derive(Drop)]
pub struct Upper {
    lines: Vec<Line>,
    named: Named,
    frame: Frame,
    // The bounds of the lines.
    lows: Vec<Bound>,
    ups: Vec<Bound>,
}

impl Model for Upper {
    ghost use Rattle.std.specs.Prelude.{◌≤◌, length};
    ghost use Rattle.rt_lines.specs.declared.line.Line.TheVariants.{Low as LowerBound};
    ghost use Rattle.rt_outline.specs.Inside.Bounds.{AreBounds, upper_bound};
    ghost use Rattle.rt_outline.specs.Lines.{AreLineArcs, Lined};
    ghost use Rattle.rt_outline.specs.Enclosing.{IsOuter};
    ghost use Rattle.rt_outline.specs.Frames.{IsFrame};

    ghost Value = { Lined };

    ghost view = { λ t. record { lines = t.lines.items; named = t.named } };

    ghost invariant = { λ t. IsOuter t.lines.items t.named t.frame.arcs.items ×
        AreLineArcs t.lines.items (length t.lines.items) t.named t.frame.arcs.items ×
        IsFrame t.frame.origins.items t.frame.steps t.frame.arcs.items t.frame.back.items ×
        (length t.named ≤ length t.frame.origins.items) ×
        AreBounds LowerBound t.lines.items (length t.lines.items) t.named t.lows.items ×
        AreBounds upper_bound t.lines.items (length t.lines.items) t.named t.ups.items };
}

impl Upper {
    /// The arcs of the lines and of hubs, closed under what is pushed from ways of them. The error is out of memory.
    pub fn of(alloc: Global, lines: &[Line], extra: &[Dtv]) -> Result<Upper, Memory>
        ensures { IfOk result (λ upper. upper ≡ record { lines = lines.now; named = named lines.now extra.now }) }
    {
        let named = Named::of(alloc, lines, extra)?;
        let frame = framed(alloc, lines, &named)?;
        let upper = Upper::with_frame(alloc, lines, named, frame)?;
        Ok(upper)
    }

    /// The same, but that arcs are meant to lead to fewer variables: hubs tell which of them may have a common lower one. It takes
    /// longer. None, where no such hubs were found. The error is out of memory.
    pub fn narrow(alloc: Global, lines: &[Line], extra: &[Dtv]) -> Result<Option<Upper>, Memory>
        ensures { IfOk result (λ found. IfSome found (λ upper.
            upper ≡ record { lines = lines.now; named = named lines.now extra.now })) }
    {
        let named = Named::of(alloc, lines, extra)?;
        match crossed(alloc, lines, &named)? {
            Some(frame) => {
                let upper = Upper::with_frame(alloc, lines, named, frame)?;
                Ok(Some(upper))
            }
            None => Ok(None),
        }
    }

    // The arcs of a frame of the lines, with their bounds.
    fn with_frame(
        alloc: Global,
        lines: &[Line],
        named: Named,
        frame: Frame,
    ) -> Result<Upper, Memory>
        requires named { AreNamed lines.now named }
        requires frame { IsFrame frame.origins.items frame.steps frame.arcs.items frame.back.items }
        requires outer { AreOuterArcs lines.now named frame.origins.items frame.arcs.items }
        ensures { IfOk result (λ upper. upper ≡ record { lines = lines.now; named = named }) }
    {
        let lows = lows(alloc, &named, lines)?;
        let ups = ups(alloc, &named, lines)?;
        let lines = copied(alloc, lines)?;
        Ok(Upper {
            lines,
            named,
            frame,
            lows,
            ups,
        })
    }

    /// The same arcs, for lines that have the same `<=` lines and bounds at the same places, and other lines no more than
    /// these. The error is out of memory.
    pub fn for_lines(self, alloc: Global, lines: &[Line]) -> Result<Upper, Memory>
        requires { HaveSameFlow self.lines lines.now }
        ensures { IfOk result (λ upper. upper ≡ record { lines = lines.now; named = self.named }) }
    {
        let Upper {
            lines: _,
            named,
            frame,
            lows,
            ups,
        } = self;
        let lines = copied(alloc, lines)?;
        Ok(Upper {
            lines,
            named,
            frame,
            lows,
            ups,
        })
    }

    /// Whether one of the variables lies below the last one by the lines that stand, those whose flags are set. All are
    /// named. The error is out of memory.
    pub fn led(&self, alloc: Global, stands: &[bool], from: &[Dtv], to: &Dtv) -> Result<Led, Memory>
        requires from { (x : Variable) → Contains from.now x → Contains self.now.named x }
        requires to { Contains self.now.named to.now }
        ensures no { IfOk result (λ led. led ≡ Never → (order : Below) →
            HasBelow order (standing self.now.lines stands.now) from.now (to.now ∷ []) → ⊥) }
        ensures yes { IfOk result (λ led. led ≡ Always → (order : Below) →
            HasBelow order (standing self.now.lines stands.now) from.now (to.now ∷ [])) }
    {
        let sources = numbers(alloc, &self.named, from)?;
        let target = self.named.number(to);
        let ground = Ground {
            named: &self.named,
            arcs: &self.frame.arcs,
            back: &self.frame.back,
            stands,
        };
        let led = tell(alloc, &ground, &sources, &[target])?;
        Ok(led)
    }

    /// Whether the constant is a lower bound of the variable by the lines that stand, those whose flags are set: whether the
    /// variable of a lower bound at or above it among them lies below the variable, which is named. The error is out of memory.
    pub fn led_low(
        &self,
        alloc: Global,
        stands: &[bool],
        order: &Order,
        k: u16,
        x: &Dtv,
    ) -> Result<Led, Memory>
        requires constants { All (HasConstantsBelow order.now.count) (standing self.now.lines stands.now) }
        requires constant { k < order.now.count }
        requires variable { Contains self.now.named x.now }
        ensures no { IfOk result (λ led. led ≡ Never →
            HasLow order.now (standing self.now.lines stands.now) k x.now → ⊥) }
        ensures yes { IfOk result (λ led. led ≡ Always →
            HasLow order.now (standing self.now.lines stands.now) k x.now) }
    {
        let sources = above(alloc, &self.lows, stands, order, k)?;
        if sources.is_empty() {
            return Ok(Led::No);
        }
        let target = self.named.number(x);
        if sources.contains(&target) {
            return Ok(Led::Yes);
        }
        let ground = Ground {
            named: &self.named,
            arcs: &self.frame.arcs,
            back: &self.frame.back,
            stands,
        };
        let led = tell(alloc, &ground, &sources, &[target])?;
        Ok(led)
    }

    /// Whether the constant is an upper bound of the variable by the lines that stand, those whose flags are set: whether the
    /// variable, which is named, lies below that of an upper bound at or below it among them. The error is out of memory.
    pub fn led_up(
        &self,
        alloc: Global,
        stands: &[bool],
        order: &Order,
        x: &Dtv,
        k: u16,
    ) -> Result<Led, Memory>
        requires constants { All (HasConstantsBelow order.now.count) (standing self.now.lines stands.now) }
        requires constant { k < order.now.count }
        requires variable { Contains self.now.named x.now }
        ensures no { IfOk result (λ led. led ≡ Never →
            HasUp order.now (standing self.now.lines stands.now) x.now k → ⊥) }
        ensures yes { IfOk result (λ led. led ≡ Always →
            HasUp order.now (standing self.now.lines stands.now) x.now k) }
    {
        let targets = below(alloc, &self.ups, stands, order, k)?;
        if targets.is_empty() {
            return Ok(Led::No);
        }
        let source = self.named.number(x);
        if targets.contains(&source) {
            return Ok(Led::Yes);
        }
        let ground = Ground {
            named: &self.named,
            arcs: &self.frame.arcs,
            back: &self.frame.back,
            stands,
        };
        let led = tell(alloc, &ground, &[source], &targets)?;
        Ok(led)
    }

    /// The lines.
    pub fn lines(&self) -> &[Line]
        ensures { result.now ≡ self.now.lines }
    {
        &self.lines
    }

    /// For each line whether it is a `<=` line that may matter for ways between some variables, as far as the lines that stand
    /// and arcs from outside show: whether both of its sides lie between these, or what these and such are made of. What may have
    /// a common lower variable is looked for along so many lines at most. Nothing is promised of this: effort alone rests on it.
    /// The error is out of memory.
    pub fn confined(
        &self,
        alloc: Global,
        stands: &[bool],
        ends: &[Dtv],
        far: u8,
    ) -> Result<Vec<bool>, Memory> {
        confined(
            alloc,
            &self.frame,
            &self.named,
            &self.lines,
            stands,
            ends,
            far,
        )
    }

    /// Classes of the variables; those that lie below each other are in one class. The error is out of memory.
    pub fn equals(&self, alloc: Global) -> Result<Classes, Memory>
        ensures { IfOk result (λ classes. AreOuterEquals self.now.lines self.now.named classes.count classes.numbers.items) }
    {
        let stands = vec![in alloc; true; self.lines.len()]?;
        let mut classes = classes(alloc, &self.frame.arcs, &stands)?;
        classes.numbers.truncate(self.named.len());
        Ok(classes)
    }
}

// Nodes of the variables and hubs, with the arcs of the lines and of hubs, closed under what is pushed from ways of them.
fn framed(alloc: Global, lines: &[Line], named: &Named) -> Result<Frame, Memory>
    requires { AreNamed lines.now named.now }
    ensures frame { IfOk result (λ frame. IsFrame frame.origins.items frame.steps frame.arcs.items frame.back.items) }
    ensures outer { IfOk result (λ frame. AreOuterArcs lines.now named.now frame.origins.items frame.arcs.items) }
{
    let mut frame = hubbed(alloc, lines, named)?;
    enter_lines(named, lines, &mut frame)?;
    enter_pointers(&mut frame)?;
    let stands = vec![in alloc; true; lines.len()]?;
    close(alloc, &mut frame, &stands)?;
    Ok(frame)
}

// Nodes of the variables and hubs by the shape of the lines, with the arcs of hubs.
fn hubbed(alloc: Global, lines: &[Line], named: &Named) -> Result<Frame, Memory>
    requires { AreNamed lines.now named.now }
    ensures frame { IfOk result (λ frame. IsFrame frame.origins.items frame.steps frame.arcs.items frame.back.items) }
    ensures hubs { IfOk result (λ frame. IsHubbed lines.now named.now frame.origins.items frame.arcs.items) }
{
    let shape = rt_shape::of(alloc, lines)?;
    let classes = nodes(alloc, named, &shape)?;
    let flips = flips(alloc, &shape, &classes)?;
    let frame = with_hubs(alloc, named, &classes, &flips)?;
    Ok(frame)
}

// Nodes of the variables and hubs by their classes, with the arcs of hubs.
fn with_hubs(
    alloc: Global,
    named: &Named,
    classes: &[Option<u32>],
    flips: &[bool],
) -> Result<Frame, Memory>
    requires distinct { AreDistinct named.now }
    requires classes { length classes.now ≡ length named.now }
    requires flips { length flips.now ≡ length classes.now }
    ensures frame { IfOk result (λ frame. IsFrame frame.origins.items frame.steps frame.arcs.items frame.back.items) }
    ensures hubs { IfOk result (λ frame. HasHubs named.now classes.now flips.now frame.origins.items frame.arcs.items) }
{
    let mut frame = Frame::of(alloc, named)?;
    enter_hubs(alloc, &mut frame, classes, flips)?;
    Ok(frame)
}
