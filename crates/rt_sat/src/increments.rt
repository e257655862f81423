// What lines say, in tables of bytes to which lines can be added.
ghost use Rattle.std.specs.Prelude.{◌≡◌, ◌++◌, ℕ, Bool, List, Contains, Some, true, length, slice_get, IfOk, OnOk};
ghost use Rattle.rt_sat.specs.declared.increments.Snapshot.{Snapshot as Earlier};
ghost use Rattle.rt_sat.specs.declared.state.Edge.{Edge as Arrow};
ghost use Rattle.rt_sat.specs.Inside.Links.{AreLinked, AreReady};
ghost use Rattle.rt_sat.specs.Hints.{AreSameMembers, IsFamily, IsTold, IsToldFamily};
ghost use Rattle.rt_lines.specs.declared.line.Line.{Line as Given};
ghost use Rattle.rt_lines.specs.declared.line.Line.TheVariants.{Sub as Subtype};
ghost use Rattle.rt_lines.specs.Orders.{Below};
ghost use Rattle.rt_lines.specs.declared.variable.Dtv.{Dtv as Variable};
ghost use Rattle.rt_named.specs.Naming.{named as named_by};
ghost use Rattle.rt_rules.specs.Rules.{Derivable, HasSide};
ghost use Rattle.rt_shape.specs.Shapes.{IsShapeOf};
ghost use Rattle.rt_sat.specs.Increments.{named_of, AreEdgesAmong, IsAdded, IsWith, Tells, Told};
ghost use Rattle.rt_sat.specs.Tables.{place, AreThere};

use crate::ends::readied;
use crate::entering::{enter_line, line_edges};
use crate::family::Family;
use crate::gathering::{Asked, Kin, clocks, spread, spread_from};
use crate::hints::{dead, enter_lines, inner, kin, revive, set};
use crate::links::Links;
use crate::passing::without_passing;
use crate::pushing::Frame;
use crate::state::{Edge, State};
use crate::table::{Begun, begin};
use rt_base::Memory;
use rt_lines::{Dtv, Line};
use rt_named::Named;
use rt_shape::Shape;
use std::alloc::Global;
use std::slice;

/// What lines say of the variables that they and others name, as far as tables of bytes find it. Lines can be added.
#[derive(Drop)]
pub struct GrowingTable {
    frame: Frame,
    family: Family,
    kin: Kin,
}

/// How much a table is to find.
#[derive(Clone, Copy)]
pub enum Extent {
    /// Whatever is found.
    Whole,
    /// As much as it takes to find that the first of the other variables that are named lies below the second.
    FirstBelowSecond,
}

/// What a table said at a time.
#[derive(Drop)]
pub struct Snapshot {
    family: Family,
}

impl GrowingTable {
    /// What the lines say of the variables that they and others name, which exist, as far as it is asked for. The error is out of
    /// memory.
    pub fn of(
        alloc: Global,
        lines: &[Line],
        shape: &Shape,
        extra: &[Dtv],
        extent: Extent,
    ) -> Result<GrowingTable, Memory>
        requires shape { IsShapeOf lines.now shape.now }
        requires there { AreThere lines.now extra.now }
        ensures named { IfOk result (λ growing. named_of growing ≡ named_by lines.now extra.now) }
        ensures tells { IfOk result (λ growing. Tells lines.now growing) }
    {
        let begun = begin(alloc, lines, shape, extra)?;
        let Begun { frame, first } = begun;
        let all = vec![in alloc; true; frame.named.len()]?;
        let inner = inner(alloc, &frame, &first, all)?;
        let used = with_named(&frame.named, extra, inner);
        let used = without_passing(alloc, &frame, &first, extra, used)?;
        let mut family = Family::of(alloc, &frame.nodes, &used)?;
        enter_lines(alloc, &mut family, &first)?;
        let mut kin = kin(alloc, &frame, &first, &family)?;
        let dead = resting(alloc, &frame, &family, &kin.links, extra)?;
        kin.ready = readied(alloc, &frame, &kin.groups, &kin.links, &dead, &family)?;
        let asked = asked_of(&frame.named, extra, extent);
        spread(alloc, &kin, &mut family, asked)?;
        Ok(GrowingTable { frame, family, kin })
    }

    /// Whether it is found that the first variable lies below the second. Where it isn't, nothing is said.
    pub fn has(&self, x: &Dtv, y: &Dtv) -> bool
        requires { (lines : List Given) × Tells lines self.now }
        ensures { result ≡ true → (order : Below) (lines : List Given) → Tells lines self.now →
            Derivable order lines (Subtype x.now y.now) }
    {
        let Some(lower) = self.frame.named.index(x) else {
            return false;
        };
        let Some(upper) = self.frame.named.index(y) else {
            return false;
        };
        self.has_numbers(lower, upper)
    }

    /// The same of the variables of two numbers: each has its index among those that the lines and others name for its number.
    pub fn has_numbers(&self, lower: u32, upper: u32) -> bool
        requires { (lines : List Given) × Tells lines self.now }
        ensures { result ≡ true → (order : Below) (lines : List Given) (x y : Variable) → Tells lines self.now →
            slice_get (named_of self.now) lower ≡ Some x → slice_get (named_of self.now) upper ≡ Some y →
            Derivable order lines (Subtype x y) }
    {
        has_way(&self.family, forth(lower), forth(upper))
    }

    /// Adds a line, if its sides are named: of ways between other variables nothing is found. The error is out of memory.
    pub fn add(&mut self, alloc: Global, line: &Line) -> Result<(), Memory>
        requires { (lines : List Given) × Tells lines self.old }
        ensures named { OnOk result (named_of self.new ≡ named_of self.old) }
        ensures added { OnOk result ((lines : List Given) → Tells lines self.old → IsAdded lines line.now self.new) }
        ensures then { OnOk result ((lines : List Given) (snapshot : Earlier) → Told lines snapshot self.old →
            Told lines snapshot self.new) }
    {
        if !self.has_sides(line) {
            return Ok(());
        }
        let edges = line_edges(alloc, &self.frame.named, slice::from_ref(line))?;
        enter(alloc, &self.kin, &mut self.family, &edges, None)?;
        Ok(())
    }

    // Whether the sides of a line are named.
    fn has_sides(&self, line: &Line) -> bool
        ensures { result ≡ true → (x : Variable) → HasSide line.now x → Contains (named_of self.now) x }
    {
        for side in line.sides() {
            if self.frame.named.index(side).is_none() {
                return false;
            }
        }
        true
    }

    /// What the table says. The error is out of memory.
    pub fn snapshot(&self, alloc: Global) -> Result<Snapshot, Memory>
        ensures { IfOk result (λ snapshot. (lines : List Given) → Tells lines self.now → Told lines snapshot self.now) }
    {
        let family = self.family.copy(alloc)?;
        Ok(Snapshot { family })
    }

    /// Whether it is found that the first variable lies below the second by what the table said at a time and by more lines,
    /// of which those are left out whose sides aren't named. Where it isn't, nothing is said. The error is out of memory.
    pub fn had_with(
        &self,
        alloc: Global,
        snapshot: &Snapshot,
        lines: &[Line],
        x: &Dtv,
        y: &Dtv,
    ) -> Result<bool, Memory>
        requires { (told : List Given) × Told told snapshot.now self.now }
        ensures { IfOk result (λ yes. yes ≡ true → (order : Below) (told : List Given) → Told told snapshot.now self.now →
            Derivable order (told ++ lines.now) (Subtype x.now y.now)) }
    {
        let Some(lower) = self.frame.named.index(x) else {
            return Ok(false);
        };
        let Some(upper) = self.frame.named.index(y) else {
            return Ok(false);
        };
        let asked = Asked {
            from: forth(lower),
            to: forth(upper),
        };
        let then = self.then_with(alloc, snapshot, lines, asked)?;
        Ok(has_way(&then.family, asked.from, asked.to))
    }

    // What the table said at a time, with what lines say whose sides are named, as far as a way is asked for. The error is out of
    // memory.
    fn then_with(
        &self,
        alloc: Global,
        snapshot: &Snapshot,
        lines: &[Line],
        asked: Asked,
    ) -> Result<Snapshot, Memory>
        requires { (told : List Given) × Told told snapshot.now self.now }
        ensures family { IfOk result (λ then. IsFamily (length (named_of self.now)) then.family) }
        ensures told { IfOk result (λ then. (told : List Given) → Told told snapshot.now self.now →
            IsWith told lines.now then self.now) }
    {
        let edges = self.edges_of(alloc, lines)?;
        let mut family = snapshot.family.copy(alloc)?;
        enter(alloc, &self.kin, &mut family, &edges, Some(asked))?;
        Ok(Snapshot { family })
    }

    // The edges of those lines whose sides are named.
    fn edges_of(&self, alloc: Global, lines: &[Line]) -> Result<Vec<Edge>, Memory>
        ensures { IfOk result (λ edges. AreEdgesAmong lines.now (named_of self.now) edges.items) }
    {
        let mut edges = Vec::new(alloc);
        for line in lines {
            if self.has_sides(line) {
                enter_line(alloc, &self.frame.named, &mut edges, line)?;
            }
        }
        Ok(edges)
    }
}

// The way that is asked for, if one is.
fn asked_of(named: &Named, extra: &[Dtv], extent: Extent) -> Option<Asked> {
    match extent {
        Extent::Whole => None,
        Extent::FirstBelowSecond => {
            let lower = named.index(extra.first()?)?;
            let upper = named.index(extra.get(1)?)?;
            Some(Asked {
                from: forth(lower),
                to: forth(upper),
            })
        }
    }
}

// Whether a way of count nought is found from one state to another.
pub(crate) fn has_way(family: &Family, from: State, to: State) -> bool
    requires { (count : ℕ) × IsFamily count family.now }
    ensures { result ≡ true → (known : List Variable) (flips : List Bool) (lines : List Arrow) →
        IsToldFamily known flips lines family.now → IsTold known flips lines from to 0 }
{
    let Some(left) = family.home(from) else {
        return false;
    };
    let Some(right) = family.home(to) else {
        return false;
    };
    if left.class != right.class {
        return false;
    }
    family.grids[left.class].row(left.index)[right.index] == 0
}

// Adds to a family what edges of lines, and what is pushed from ways along them, say, until a way is found that may be asked for.
fn enter(
    alloc: Global,
    kin: &Kin,
    family: &mut Family,
    edges: &[Edge],
    asked: Option<Asked>,
) -> Result<(), Memory>
    requires family { (count : ℕ) × IsFamily count family.old }
    requires ready { (known : List Variable) × (flips : List Bool) × AreReady known flips family.old kin.now.links kin.now.ready.items }
    ensures same { OnOk result (AreSameMembers family.old family.new) }
    ensures family { OnOk result ((count : ℕ) → IsFamily count family.old → IsFamily count family.new) }
    ensures told { OnOk result ((known : List Variable) (flips : List Bool) (lines : List Arrow) →
        ((e : Arrow) → Contains edges.now e → Contains lines e) →
        AreReady known flips family.old kin.now.links kin.now.ready.items → AreLinked known flips lines kin.now.links →
        IsToldFamily known flips lines family.old → IsToldFamily known flips lines family.new) }
{
    let since = clocks(alloc, family)?;
    enter_lines(alloc, family, edges)?;
    let due = due(alloc, family, edges)?;
    spread_from(alloc, kin, family, due, since, asked, false)
}

// A flag for each class, set for those of the edges' starts.
fn due(alloc: Global, family: &Family, edges: &[Edge]) -> Result<Vec<bool>, Memory>
    requires { (count : ℕ) × IsFamily count family.now }
    ensures { IfOk result (λ due. length due.items ≡ length family.now.members.items) }
{
    let mut due = vec![in alloc; false; family.members.len()]?;
    for edge in edges {
        if let Some(home) = family.home(edge.from) {
            due[home.class] = true;
        }
    }
    Ok(due)
}

// The state of a variable that keeps the order.
fn forth(variable: u32) -> State
    ensures { result ≡ place variable }
{
    State {
        variable,
        contra: false,
    }
}

// The flags, with those of variables set.
fn with_named(named: &Named, variables: &[Dtv], flags: Vec<bool>) -> Vec<bool>
    ensures { length result.items ≡ length flags.items }
{
    let mut flags = flags;
    for x in variables {
        if let Some(number) = named.index(x) {
            set(&mut flags, number);
        }
    }
    flags
}

// For each place of each class whether no edge leads on from there, and none of a line that is added either, if each of these
// begins at one of some variables.
fn resting(
    alloc: Global,
    frame: &Frame,
    family: &Family,
    links: &Links,
    variables: &[Dtv],
) -> Result<Vec<Vec<bool>>, Memory>
    requires { (count : ℕ) × IsFamily count family.now }
{
    let mut dead = dead(alloc, frame, family, links)?;
    for x in variables {
        if let Some(variable) = frame.named.index(x) {
            for contra in [false, true] {
                revive(family, State { variable, contra }, &mut dead);
            }
        }
    }
    Ok(dead)
}
