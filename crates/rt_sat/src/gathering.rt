// Pushes from ways that tables of bytes give.
ghost use Rattle.std.specs.Prelude.{◌≡◌, ◌<◌, ℕ, Bool, List, Contains, Some, None, IfOk, OnOk};
ghost use Rattle.std.specs.Prelude.{length};
ghost use Rattle.rt_grid.specs.declared.grid.Step.{Step as Pace};
ghost use Rattle.rt_grid.specs.Tables.{size_of, Holds, Made, SaysOr, SaysWith};
ghost use Rattle.rt_lines.specs.declared.variable.Dtv.{Dtv as Variable};
ghost use Rattle.rt_sat.specs.declared.state.State.{State as Place};
ghost use Rattle.rt_sat.specs.declared.state.Edge.{Edge as Arrow};
ghost use Rattle.rt_sat.specs.Inside.Links.{AreEndsFrom, AreEndsOf, AreLinked, AreReady, AreSources, AreTargets, AreTied};
ghost use Rattle.rt_sat.specs.Inside.Links.{IsReady};
ghost use Rattle.rt_sat.specs.declared.links.Links.{Links as Ties};
ghost use Rattle.rt_sat.specs.Hints.{grid_of, members_of, AreInClass};
ghost use Rattle.rt_sat.specs.Hints.{AreSameMembers, AreToldSteps, IsFamily, IsGroup, IsHome, IsToldFamily};
ghost use Rattle.rt_sat.specs.Numbered.{AreDistinct};

use crate::ends::ends;
use crate::family::{Family, Home};
use crate::increments::has_way;
use crate::links::Links;
use crate::pushing::Frame;
use crate::state::State;
use crate::stepping::{Spots, gathered};
use rt_base::{Memory, Sequence};
use rt_grid::{Grid, Step};
use rt_lines::Label;
use std::alloc::Global;

// How often all classes are gone over at most.
const PASSES: usize = 1000;

// In how many passes steps are put in before spare ones are forgotten, where many are put in.
const BETWEEN: usize = 2;

// In how many they are where few are put in.
const SELDOM: usize = 4;

// A variable with a letter more than a member of a class, or than what has the letter of a pointer more than a member.
#[derive(Clone, Copy)]
pub(crate) struct Kid {
    // The index of the member.
    pub(crate) parent: usize,
    // What has the letter of a pointer more than the member, if the variable has a letter more than that.
    pub(crate) through: Option<u32>,
    // The variable.
    pub(crate) variable: u32,
}

// Variables with a letter more than members of a class, or than what has the letter of a pointer more than these: with one letter,
// or with letters of pointers. Nothing is pushed but between those of one group.
#[derive(Drop)]
pub(crate) struct Group {
    // The class of the members.
    pub(crate) class: usize,
    // The variables.
    pub(crate) kids: Sequence<Kid>,
}

// The ends of a group: those that are pushed from, and those that are pushed to, from which something leads on, and the others.
#[derive(Drop)]
pub(crate) struct Ready {
    // The class of the roots.
    pub(crate) class: usize,
    pub(crate) sources: Vec<End>,
    pub(crate) leading: Vec<End>,
    pub(crate) others: Vec<End>,
    // What is read of those that are pushed to.
    pub(crate) leading_spots: Spots,
    pub(crate) other_spots: Spots,
}

// What is pushed within a family.
#[derive(Drop)]
pub(crate) struct Kin {
    // Variables with a letter more than members.
    pub(crate) groups: Vec<Group>,
    // What leads to those of them that aren't members themselves, and from them.
    pub(crate) links: Links,
    // The ends of groups.
    pub(crate) ready: Vec<Ready>,
    // For each two kinds of ends of pointers what is pushed from each count. Effort alone rests on these.
    pub(crate) halves: Vec<u8>,
}

// The state of a variable with a letter more than a member's state, the root, or than what has the letter of a pointer more than
// the root: to it is pushed what is known of the root.
#[derive(Clone, Copy)]
pub(crate) struct End {
    // The place of the root's state in its class.
    pub(crate) place: usize,
    pub(crate) root: State,
    // The letter of a pointer that the parent has more than the root, if it isn't the root.
    pub(crate) pointed: Option<Label>,
    // Whether the root can be read and written through.
    pub(crate) root_flip: bool,
    pub(crate) parent: State,
    pub(crate) child: State,
    // The letter that the child has more.
    pub(crate) letter: Label,
    // The child, if it stands in the family that is pushed to, else a state that stands there and leads to it or from it.
    pub(crate) stand: State,
    // Where that stands.
    pub(crate) home: Home,
    // Whether the parent can be read and written through.
    pub(crate) flip: bool,
    // Whether counts above nought matter at the child.
    pub(crate) matters: bool,
    // Whether the letter is that of a pointer.
    pub(crate) pointer: bool,
    // Whether the rest behind the child, with its letter, turns the order round.
    pub(crate) turned: bool,
    // Whether something leads on from where it stands but what is pushed to the group's others.
    pub(crate) leads_on: bool,
}

// Between which states a way of count nought is asked for.
#[derive(Clone, Copy)]
pub(crate) struct Asked {
    pub(crate) from: State,
    pub(crate) to: State,
}

// Pushes within a family, until nothing is added, or until a way of count nought is found that may be asked for.
pub(crate) fn spread(
    alloc: Global,
    kin: &Kin,
    family: &mut Family,
    asked: Option<Asked>,
) -> Result<(), Memory>
    requires family { (count : ℕ) × IsFamily count family.old }
    requires ready { (known : List Variable) × (flips : List Bool) × AreReady known flips family.old kin.now.links kin.now.ready.items }
    ensures same { OnOk result (AreSameMembers family.old family.new) }
    ensures family { OnOk result ((count : ℕ) → IsFamily count family.old → IsFamily count family.new) }
    ensures told { OnOk result ((known : List Variable) (flips : List Bool) (lines : List Arrow) →
        AreReady known flips family.old kin.now.links kin.now.ready.items → AreLinked known flips lines kin.now.links →
        IsToldFamily known flips lines family.old → IsToldFamily known flips lines family.new) }
{
    let due = vec![in alloc; true; family.members.len()]?;
    let since = vec![in alloc; 0u64; family.members.len()]?;
    spread_from(alloc, kin, family, due, since, asked, true)
}

// Pushes within a family from the classes that are due, until nothing is added, or until a way of count nought is found that may
// be asked for. Of a class those rows alone are pushed that changed since it was pushed from last, of which there are the clocks:
// no promise rests on these, nor on how often spare steps are forgotten.
pub(crate) fn spread_from(
    alloc: Global,
    kin: &Kin,
    family: &mut Family,
    due: Vec<bool>,
    since: Vec<u64>,
    asked: Option<Asked>,
    often: bool,
) -> Result<(), Memory>
    requires family { (count : ℕ) × IsFamily count family.old }
    requires ready { (known : List Variable) × (flips : List Bool) × AreReady known flips family.old kin.now.links kin.now.ready.items }
    requires due { length due.items ≡ length family.old.members.items }
    ensures same { OnOk result (AreSameMembers family.old family.new) }
    ensures family { OnOk result ((count : ℕ) → IsFamily count family.old → IsFamily count family.new) }
    ensures told { OnOk result ((known : List Variable) (flips : List Bool) (lines : List Arrow) →
        AreReady known flips family.old kin.now.links kin.now.ready.items → AreLinked known flips lines kin.now.links →
        IsToldFamily known flips lines family.old → IsToldFamily known flips lines family.new) }
{
    let mut due = due;
    let mut since = since;
    for pass in 0..PASSES {
        let mut next = vec![in alloc; false; due.len()]?;
        sweep_due(alloc, family, &due, forgets(pass, often), &mut next)?;
        if is_answered(family, asked) {
            return Ok(());
        }
        let clocks = clocks(alloc, family)?;
        push_due(alloc, kin, family, &due, &since, &mut next)?;
        if !next.contains(&true) {
            return Ok(());
        }
        due = next;
        since = clocks;
    }
    Ok(())
}

// Whether spare steps are forgotten in a pass.
fn forgets(pass: usize, often: bool) -> bool {
    if often {
        pass % BETWEEN == BETWEEN - 1
    } else {
        pass % SELDOM == SELDOM - 1
    }
}

// Whether a way that is asked for is found.
fn is_answered(family: &Family, asked: Option<Asked>) -> bool
    requires { (count : ℕ) × IsFamily count family.now }
{
    match asked {
        Some(asked) => has_way(family, asked.from, asked.to),
        None => false,
    }
}

// For each class when something was last noted of its ways.
pub(crate) fn clocks(alloc: Global, family: &Family) -> Result<Vec<u64>, Memory> {
    let mut clocks = Vec::with_capacity(alloc, family.grids.len())?;
    for grid in &family.grids {
        clocks.push(grid.clock())?;
    }
    Ok(clocks)
}

// Takes in what the steps of the classes lead to that are due, and flags those in which a way became shorter.
fn sweep_due(
    alloc: Global,
    family: &mut Family,
    due: &[bool],
    prunes: bool,
    next: &mut Vec<bool>,
) -> Result<(), Memory>
    requires family { (count : ℕ) × IsFamily count family.old }
    requires due { length due.now ≡ length family.old.members.items }
    requires next { length next.old.items ≡ length family.old.members.items }
    ensures next { OnOk result (length next.new.items ≡ length next.old.items) }
    ensures same { OnOk result (AreSameMembers family.old family.new) }
    ensures family { OnOk result ((count : ℕ) → IsFamily count family.old → IsFamily count family.new) }
    ensures told { OnOk result ((known : List Variable) (flips : List Bool) (lines : List Arrow) →
        IsToldFamily known flips lines family.old → IsToldFamily known flips lines family.new) }
{
    for class in 0..due.len() {
        sweep_at(alloc, family, class, due[class], prunes, next)?;
    }
    Ok(())
}

// Takes in what the steps of a class lead to, if it is due, and flags it, if a way became shorter.
fn sweep_at(
    alloc: Global,
    family: &mut Family,
    class: usize,
    due: bool,
    prunes: bool,
    next: &mut Vec<bool>,
) -> Result<(), Memory>
    requires family { (count : ℕ) × IsFamily count family.old }
    requires class { class < length family.old.members.items }
    requires next { length next.old.items ≡ length family.old.members.items }
    ensures next { OnOk result (length next.new.items ≡ length next.old.items) }
    ensures same { OnOk result (AreSameMembers family.old family.new) }
    ensures family { OnOk result ((count : ℕ) → IsFamily count family.old → IsFamily count family.new) }
    ensures told { OnOk result ((known : List Variable) (flips : List Bool) (lines : List Arrow) →
        IsToldFamily known flips lines family.old → IsToldFamily known flips lines family.new) }
{
    if !due {
        return Ok(());
    }
    if sweep_class(alloc, family, class, prunes)? {
        next[class] = true;
    }
    Ok(())
}

// Takes in what the steps of a class lead to, and may forget those before without which its ways are as short. Whether a way
// became shorter.
fn sweep_class(
    alloc: Global,
    family: &mut Family,
    class: usize,
    prunes: bool,
) -> Result<bool, Memory>
    requires family { (count : ℕ) × IsFamily count family.old }
    requires class { class < length family.old.members.items }
    ensures same { OnOk result (AreSameMembers family.old family.new) }
    ensures family { OnOk result ((count : ℕ) → IsFamily count family.old → IsFamily count family.new) }
    ensures told { OnOk result ((known : List Variable) (flips : List Bool) (lines : List Arrow) →
        IsToldFamily known flips lines family.old → IsToldFamily known flips lines family.new) }
{
    if prunes {
        family.prune(alloc, class)?;
    }
    let shorter = family.sweep(alloc, class)?;
    Ok(shorter)
}

// Pushes once from each class that is due, as far as its rows changed since its clock, and flags those to which something was
// added.
fn push_due(
    alloc: Global,
    kin: &Kin,
    family: &mut Family,
    due: &[bool],
    since: &[u64],
    next: &mut Vec<bool>,
) -> Result<(), Memory>
    requires family { (count : ℕ) × IsFamily count family.old }
    requires ready { (known : List Variable) × (flips : List Bool) × AreReady known flips family.old kin.now.links kin.now.ready.items }
    requires next { length next.old.items ≡ length family.old.members.items }
    ensures next { OnOk result (length next.new.items ≡ length next.old.items) }
    ensures same { OnOk result (AreSameMembers family.old family.new) }
    ensures family { OnOk result ((count : ℕ) → IsFamily count family.old → IsFamily count family.new) }
    ensures told { OnOk result ((known : List Variable) (flips : List Bool) (lines : List Arrow) →
        AreReady known flips family.old kin.now.links kin.now.ready.items → AreLinked known flips lines kin.now.links →
        IsToldFamily known flips lines family.old → IsToldFamily known flips lines family.new) }
{
    for ready in &kin.ready {
        if let Some(since) = clock_of(due, since, ready.class) {
            push_ready(alloc, ready, &kin.halves, family, since, next)?;
        }
    }
    Ok(())
}

// The clock of a class's last push, if the class is due.
fn clock_of(due: &[bool], since: &[u64], class: usize) -> Option<u64> {
    match due.get(class) {
        Some(true) => Some(*since.get(class)?),
        Some(false) | None => None,
    }
}

// Pushes from the rows of a group's class that changed since to its ends, within their family.
fn push_ready(
    alloc: Global,
    ready: &Ready,
    halves: &[u8],
    family: &mut Family,
    since: u64,
    next: &mut Vec<bool>,
) -> Result<(), Memory>
    requires family { (count : ℕ) × IsFamily count family.old }
    requires ready { (known : List Variable) × (flips : List Bool) × (links : Ties) × IsReady known flips family.old links ready.now }
    requires next { length next.old.items ≡ length family.old.members.items }
    ensures next { OnOk result (length next.new.items ≡ length next.old.items) }
    ensures same { OnOk result (AreSameMembers family.old family.new) }
    ensures family { OnOk result ((count : ℕ) → IsFamily count family.old → IsFamily count family.new) }
    ensures told { OnOk result ((known : List Variable) (flips : List Bool) (links : Ties) (lines : List Arrow) →
        IsReady known flips family.old links ready.now → AreLinked known flips lines links →
        IsToldFamily known flips lines family.old → IsToldFamily known flips lines family.new) }
{
    push_ends(
        alloc,
        &ready.sources,
        &ready.leading,
        &ready.leading_spots,
        halves,
        family,
        ready.class,
        since,
        next,
    )?;
    push_ends(
        alloc,
        &ready.sources,
        &ready.others,
        &ready.other_spots,
        halves,
        family,
        ready.class,
        since,
        next,
    )?;
    Ok(())
}

// Pushes from the rows of ends' parents that changed since to others within their family, and flags the classes to which
// something was added.
fn push_ends(
    alloc: Global,
    sources: &[End],
    targets: &[End],
    spots: &Spots,
    halves: &[u8],
    family: &mut Family,
    class: usize,
    since: u64,
    next: &mut Vec<bool>,
) -> Result<(), Memory>
    requires family { (count : ℕ) × IsFamily count family.old }
    requires class { class < length family.old.members.items }
    requires ends { (known : List Variable) × (flips : List Bool) ×
        AreEndsOf known flips (members_of family.old class) family.old sources.now targets.now }
    requires next { length next.old.items ≡ length family.old.members.items }
    ensures next { OnOk result (length next.new.items ≡ length next.old.items) }
    ensures same { OnOk result (AreSameMembers family.old family.new) }
    ensures family { OnOk result ((count : ℕ) → IsFamily count family.old → IsFamily count family.new) }
    ensures told { OnOk result ((known : List Variable) (flips : List Bool) (lines : List Arrow) →
        AreEndsOf known flips (members_of family.old class) family.old sources.now targets.now →
        AreSources known flips lines sources.now → AreTargets known flips lines targets.now →
        IsToldFamily known flips lines family.old → IsToldFamily known flips lines family.new) }
{
    for source in sources {
        if family.grids[class].has_changed(source.place, since) {
            push_within(alloc, targets, spots, halves, source, family, class, next)?;
        }
    }
    Ok(())
}

// Pushes from the row of an end's parent to others within its family, and flags the class to which something was added.
fn push_within(
    alloc: Global,
    targets: &[End],
    spots: &Spots,
    halves: &[u8],
    source: &End,
    family: &mut Family,
    class: usize,
    next: &mut Vec<bool>,
) -> Result<(), Memory>
    requires family { (count : ℕ) × IsFamily count family.old }
    requires class { class < length family.old.members.items }
    requires ends { (known : List Variable) × (flips : List Bool) ×
        AreEndsFrom known flips (members_of family.old class) family.old source.now targets.now }
    requires next { length next.old.items ≡ length family.old.members.items }
    ensures next { OnOk result (length next.new.items ≡ length next.old.items) }
    ensures same { OnOk result (AreSameMembers family.old family.new) }
    ensures family { OnOk result ((count : ℕ) → IsFamily count family.old → IsFamily count family.new) }
    ensures told { OnOk result ((known : List Variable) (flips : List Bool) (lines : List Arrow) →
        AreEndsFrom known flips (members_of family.old class) family.old source.now targets.now →
        AreTied known flips lines source.now targets.now → IsToldFamily known flips lines family.old →
        IsToldFamily known flips lines family.new) }
{
    let found = found_at(alloc, targets, spots, halves, source, family, class, family)?;
    let leads_on = source.leads_on || lead_on(targets);
    if put(alloc, family, source.home, &found, leads_on)? {
        next[source.home.class] = true;
    }
    Ok(())
}

// Whether something leads on from the first of ends.
fn lead_on(ends: &[End]) -> bool {
    match ends.first() {
        Some(end) => end.leads_on,
        None => false,
    }
}

// Pushes from the ways of a class to the variables of a group, in another family.
pub(crate) fn push_apart(
    alloc: Global,
    frame: &Frame,
    group: &Group,
    halves: &[u8],
    family: &Family,
    into: &mut Family,
) -> Result<(), Memory>
    requires distinct { AreDistinct frame.now.named }
    requires family { IsFamily (length frame.now.named) family.now }
    requires group { IsGroup family.now group.now }
    requires into { IsFamily (length frame.now.named) into.old }
    ensures same { OnOk result (AreSameMembers into.old into.new) }
    ensures family { OnOk result (IsFamily (length frame.now.named) into.new) }
    ensures told { OnOk result ((lines : List Arrow) → IsToldFamily frame.now.named frame.now.flips.items lines family.now →
        IsToldFamily frame.now.named frame.now.flips.items lines into.old →
        IsToldFamily frame.now.named frame.now.flips.items lines into.new) }
{
    let members = family.members[group.class].items();
    let ends = ends(alloc, frame, members, group.kids.items(), &[], &[], into)?;
    let spots = Spots::of(alloc, &ends)?;
    for source in &ends {
        let found = found_at(
            alloc,
            &ends,
            &spots,
            halves,
            source,
            family,
            group.class,
            into,
        )?;
        put(alloc, into, source.home, &found, true)?;
    }
    Ok(())
}

// The steps that are pushed from the row of an end's parent, in a class of a family, from where the end stands to where others
// do.
fn found_at(
    alloc: Global,
    targets: &[End],
    spots: &Spots,
    halves: &[u8],
    source: &End,
    family: &Family,
    class: usize,
    into: &Family,
) -> Result<Vec<Step>, Memory>
    requires family { (count : ℕ) × IsFamily count family.now }
    requires class { class < length family.now.members.items }
    requires into { (count : ℕ) × IsFamily count into.now }
    requires ends { (known : List Variable) × (flips : List Bool) ×
        AreEndsFrom known flips (members_of family.now class) into.now source.now targets.now }
    ensures inside { IfOk result (λ found. AreInClass into.now source.now.home.class found.items) }
    ensures told { IfOk result (λ found. (known : List Variable) (flips : List Bool) (lines : List Arrow) →
        AreEndsFrom known flips (members_of family.now class) into.now source.now targets.now →
        AreTied known flips lines source.now targets.now → IsToldFamily known flips lines family.now →
        AreToldSteps known flips lines source.now.stand into.now source.now.home.class found.items) }
{
    let row = family.grids[class].row(source.place);
    let known = into.grids[source.home.class].row(source.home.index);
    let found = gathered(alloc, targets, spots, halves, row, source, known)?;
    Ok(found)
}

// Adds steps from a place of a class, or their counts alone. Whether one was added.
fn put(
    alloc: Global,
    into: &mut Family,
    home: Home,
    found: &[Step],
    leads_on: bool,
) -> Result<bool, Memory>
    requires into { (count : ℕ) × IsFamily count into.old }
    requires class { home.class < length into.old.members.items }
    requires place { home.index < size_of (grid_of into.old home.class) }
    requires found { AreInClass into.old home.class found.now }
    ensures same { OnOk result (AreSameMembers into.old into.new) }
    ensures family { OnOk result ((count : ℕ) → IsFamily count into.old → IsFamily count into.new) }
    ensures told { OnOk result ((known : List Variable) (flips : List Bool) (lines : List Arrow) (stand : Place) →
        IsHome into.old stand home → AreToldSteps known flips lines stand into.old home.class found.now →
        IsToldFamily known flips lines into.old → IsToldFamily known flips lines into.new) }
{
    let added = enter(
        alloc,
        &mut into.grids[home.class],
        home.index,
        found,
        leads_on,
    )?;
    Ok(added)
}

// Adds steps from a place, the least counts first, or their counts alone, if nothing leads on from where they end but what is
// pushed from the place too. Whether one was added.
fn enter(
    alloc: Global,
    grid: &mut Grid,
    from: usize,
    found: &[Step],
    leads_on: bool,
) -> Result<bool, Memory>
    requires from { from < size_of grid.old }
    requires inside { (s : Pace) → Contains found.now s → s.to < size_of grid.old }
    ensures size { OnOk result (size_of grid.new ≡ size_of grid.old) }
    ensures holds { OnOk result (Holds (Made (SaysOr grid.old from found.now)) grid.new) }
{
    if !leads_on {
        let any = grid.lower(alloc, from, found)?;
        return Ok(any);
    }
    let mut any = false;
    let levels = most(found) as usize + 1;
    for level in 0..levels {
        if enter_level(alloc, grid, from, found, level)? {
            any = true;
        }
    }
    Ok(any)
}

// Adds those steps from a place that have a count. Whether one was added.
fn enter_level(
    alloc: Global,
    grid: &mut Grid,
    from: usize,
    found: &[Step],
    level: usize,
) -> Result<bool, Memory>
    requires from { from < size_of grid.old }
    requires inside { (s : Pace) → Contains found.now s → s.to < size_of grid.old }
    ensures size { OnOk result (size_of grid.new ≡ size_of grid.old) }
    ensures holds { OnOk result (Holds (Made (SaysOr grid.old from found.now)) grid.new) }
{
    let mut any = false;
    for step in found {
        if enter_step(alloc, grid, from, *step, level)? {
            any = true;
        }
    }
    Ok(any)
}

// Adds a step from a place, if it has a count. Whether it was added.
fn enter_step(
    alloc: Global,
    grid: &mut Grid,
    from: usize,
    step: Step,
    level: usize,
) -> Result<bool, Memory>
    requires from { from < size_of grid.old }
    requires to { step.to < size_of grid.old }
    ensures size { OnOk result (size_of grid.new ≡ size_of grid.old) }
    ensures holds { OnOk result (Holds (Made (SaysWith grid.old from step.to step.count)) grid.new) }
{
    if step.count as usize != level {
        return Ok(false);
    }
    grid.add(alloc, from, step.to, step.count)
}

// The greatest count.
fn most(found: &[Step]) -> u8 {
    let mut most = 0;
    for step in found {
        if step.count > most {
            most = step.count;
        }
    }
    most
}
