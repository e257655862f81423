// Edges that are pushed from ways along others, found by tables of bytes. Nothing says that these are all, so searches go on
// from them.
ghost use Rattle.std.specs.Prelude.{◌≡◌, ◌∷◌, ◌++◌, ◌*◌, ◌<◌, ◌≤◌, ℕ, [], List, Bool, Contains, IfOk, IfSome, OnOk, length};
ghost use Rattle.rt_lines.specs.declared.variable.Dtv.{Dtv as Variable};
ghost use Rattle.rt_sat.specs.declared.state.Edge.{Edge as Arrow};
ghost use Rattle.rt_sat.specs.declared.state.State.{State as Place};
ghost use Rattle.rt_grid.specs.Tables.{size_of};
ghost use Rattle.rt_sat.specs.declared.family.Family.{Family as Classes};
ghost use Rattle.rt_sat.specs.Hints.{state_at, AreGroups, AreMore, AreSameMembers, AreTold, IsFamily, IsHome, IsKid, IsOfStep};
ghost use Rattle.rt_sat.specs.Hints.{IsStepFrom, IsStepOf, IsTold, IsToldFamily};
ghost use Rattle.rt_sat.specs.Inside.Checks.{AreWalked};
ghost use Rattle.rt_sat.specs.Inside.Links.{AreLinked};
ghost use Rattle.rt_sat.specs.Numbered.{AreDistinct, AreWithin};

use crate::count::Count;
use crate::ends::readied;
use crate::family::{Family, Home, class_count};
use crate::gathering::{Group, Kid, Kin, push_apart, spread};
use crate::links::Links;
use crate::passing::without_passing;
use crate::pushing::{Frame, flag, is_pointer, numbers_at};
use crate::state::{Edge, State};
use crate::stepping::halves;
use rt_base::{Memory, Sequence};
use rt_grid::{Grid, Step};
use rt_lines::{Label, Loc};
use rt_named::Origin;
use std::alloc::Global;
use std::collections::BTreeMap;

// From so many edges of lines on it pays to look for hints.
pub(crate) const MANY: usize = 200;

// A class with no member with a letter more is looked at too, if it has no more members.
const SMALL: usize = 500;

// A number for what letters have in common, and what they have of their own.
type Kind = (u8, u32, i32);

// The group of each class and kind of letters.
type Places = BTreeMap<(usize, Kind), usize>;

// Pushed edges, and the tables that they come from.
#[derive(Drop)]
pub(crate) struct Hinted {
    pub(crate) edges: Vec<Edge>,
    // The ways between the variables from which edges lead on. There are none where there are few lines.
    pub(crate) family: Option<Family>,
}

// Pushed edges. The error is out of memory.
pub(crate) fn hints(alloc: Global, frame: &Frame, lines: &[Edge]) -> Result<Hinted, Memory>
    requires distinct { AreDistinct frame.now.named }
    requires nodes { length frame.now.nodes.items ≡ length frame.now.named }
    ensures told { IfOk result (λ hinted. AreTold frame.now.named frame.now.flips.items lines.now hinted.edges.items) }
    ensures within { IfOk result (λ hinted. AreWithin frame.now.named hinted.edges.items) }
    ensures family { IfOk result (λ hinted. IfSome hinted.family (IsFamily (length frame.now.named))) }
{
    if lines.len() < MANY {
        return Ok(Hinted {
            edges: Vec::new(alloc),
            family: None,
        });
    }
    let above = above(alloc, frame)?;
    let inner = inner(alloc, frame, lines, above)?;
    let used = without_passing(alloc, frame, lines, &[], inner)?;
    let mut family = Family::of(alloc, &frame.nodes, &used)?;
    enter_lines(alloc, &mut family, lines)?;
    let mut kin = kin(alloc, frame, lines, &family)?;
    let dead = dead(alloc, frame, &family, &kin.links)?;
    kin.ready = readied(alloc, frame, &kin.groups, &kin.links, &dead, &family)?;
    spread(alloc, &kin, &mut family, None)?;
    let edges = pushed(alloc, frame, &kin.groups, &kin.halves, &family)?;
    Ok(Hinted {
        edges,
        family: Some(family),
    })
}

// The flags, but for those of variables with a letter more than another one and with none more themselves, and of bases at which
// a way ends. An edge between two of the former sets that of the one with more edges. So ways through such a variable go along
// edges of others, which are links. Effort alone rests on which flags these are.
pub(crate) fn inner(
    alloc: Global,
    frame: &Frame,
    lines: &[Edge],
    flags: Vec<bool>,
) -> Result<Vec<bool>, Memory>
    requires { length flags.items ≡ length frame.now.named }
    ensures { IfOk result (λ inner. length inner.items ≡ length flags.items) }
{
    let degrees = degrees(alloc, lines, frame.named.len())?;
    let mut flags = flags;
    for number in 0..frame.named.len() {
        if is_leaf(frame, number as u32) || is_end(frame, &degrees, number as u32) {
            flags[number] = false;
        }
    }
    for edge in lines {
        cover(frame, &degrees, edge, &mut flags);
    }
    Ok(flags)
}

// For each variable how many edges begin or end there.
fn degrees(alloc: Global, lines: &[Edge], count: usize) -> Result<Vec<usize>, Memory> {
    let mut degrees = vec![in alloc; 0usize; count]?;
    for edge in lines {
        for number in [edge.from.variable, edge.to.variable] {
            if let Some(degree) = degrees.get_mut(number as usize) {
                *degree = degree.saturating_add(1);
            }
        }
    }
    Ok(degrees)
}

// Sets the flag of one of the variables of an edge, that with more edges, if it has none yet and no way ends there.
fn cover(frame: &Frame, degrees: &[usize], edge: &Edge, flags: &mut Vec<bool>)
    ensures { length flags.new.items ≡ length flags.old.items }
{
    let from = edge.from.variable;
    let to = edge.to.variable;
    if flag(flags, from)
        || flag(flags, to)
        || is_end(frame, degrees, from)
        || is_end(frame, degrees, to)
    {
        return;
    }
    if degree(degrees, from) >= degree(degrees, to) {
        set(flags, from);
    } else {
        set(flags, to);
    }
}

// How many edges begin or end at a variable.
fn degree(degrees: &[usize], number: u32) -> usize {
    match degrees.get(number as usize) {
        Some(degree) => *degree,
        None => 0,
    }
}

// Whether the variable is a base with no letter more, at which one line ends at most: each has two edges.
fn is_end(frame: &Frame, degrees: &[usize], number: u32) -> bool {
    if number as usize >= frame.named.len() {
        return false;
    }
    match frame.named.origin(number) {
        Origin::Bare(_) => {
            degree(degrees, number) <= 2 && numbers_at(&frame.children, number).is_empty()
        }
        Origin::Longer(_, _) => false,
    }
}

// Sets a flag, if there is one of this number.
pub(crate) fn set(flags: &mut Vec<bool>, number: u32)
    ensures { length flags.new.items ≡ length flags.old.items }
{
    let number = number as usize;
    if number < flags.len() {
        flags[number] = true;
    }
}

// Whether the variable has a letter more than another one, and none has more than it.
fn is_leaf(frame: &Frame, number: u32) -> bool
    requires { number < length frame.now.named }
{
    match frame.named.origin(number) {
        Origin::Longer(_, _) => numbers_at(&frame.children, number).is_empty(),
        Origin::Bare(_) => false,
    }
}

// What is pushed within a family: the variables with a letter more than members of classes, and the links among edges.
pub(crate) fn kin(
    alloc: Global,
    frame: &Frame,
    edges: &[Edge],
    family: &Family,
) -> Result<Kin, Memory>
    requires { (count : ℕ) × IsFamily count family.now }
    ensures groups { IfOk result (λ kin. AreGroups family.now kin.groups.items) }
    ensures linked { IfOk result (λ kin. (known : List Variable) (flips : List Bool) (lines : List Arrow) →
        ((e : Arrow) → Contains edges.now e → Contains lines e) → AreLinked known flips lines kin.links) }
{
    let groups = groups(alloc, frame, family)?;
    let links = Links::of(alloc, edges, family, frame.named.len())?;
    Ok(Kin {
        groups,
        links,
        ready: Vec::new(alloc),
        halves: halves(alloc)?,
    })
}

// For each place of each class where counts matter whether no edge of a line leads from there, but for that to the state that is
// turned round.
pub(crate) fn dead(
    alloc: Global,
    frame: &Frame,
    family: &Family,
    links: &Links,
) -> Result<Vec<Vec<bool>>, Memory>
    requires { (count : ℕ) × IsFamily count family.now }
{
    let mut dead = Vec::with_capacity(alloc, family.grids.len())?;
    for class in 0..family.grids.len() {
        let members = family.members[class].items();
        let flags = dead_of(alloc, frame, members, &family.grids[class])?;
        dead.push(flags)?;
    }
    for states in &links.before {
        for state in states.items() {
            revive(family, *state, &mut dead);
        }
    }
    Ok(dead)
}

// For each place of a class whether there is no step from it but that to the state that is turned round, if counts matter there.
fn dead_of(alloc: Global, frame: &Frame, members: &[u32], grid: &Grid) -> Result<Vec<bool>, Memory>
    requires { size_of grid.now ≡ 2 * length members.now }
{
    let mut dead = Vec::with_capacity(alloc, grid.len())?;
    for place in 0..grid.len() {
        let matters = flag(&frame.matters, members[place / 2]);
        dead.push(matters && grid.steps(place).len() < 2)?;
    }
    Ok(dead)
}

// Clears the flag of where a state stands.
pub(crate) fn revive(family: &Family, state: State, dead: &mut [Vec<bool>])
    requires { (count : ℕ) × IsFamily count family.now }
{
    if let Some(home) = family.home(state)
        && home.class < dead.len()
        && home.index < dead[home.class].len()
    {
        dead[home.class][home.index] = false;
    }
}

// Adds steps of edges, as far as their counts are small.
pub(crate) fn enter_lines(alloc: Global, family: &mut Family, lines: &[Edge]) -> Result<(), Memory>
    requires { (count : ℕ) × IsFamily count family.old }
    ensures same { OnOk result (AreSameMembers family.old family.new) }
    ensures family { OnOk result ((count : ℕ) → IsFamily count family.old → IsFamily count family.new) }
    ensures told { OnOk result ((known : List Variable) (flips : List Bool) → IsToldFamily known flips lines.now family.old →
        IsToldFamily known flips lines.now family.new) }
    ensures among { OnOk result ((known : List Variable) (flips : List Bool) (edges : List Arrow) →
        ((e : Arrow) → Contains lines.now e → Contains edges e) → IsToldFamily known flips edges family.old →
        IsToldFamily known flips edges family.new) }
    ensures walked { OnOk result ((edges : List Arrow) → ((e : Arrow) → Contains lines.now e → Contains edges e) →
        AreWalked family.old edges → AreWalked family.new edges) }
{
    for edge in lines {
        enter_line(alloc, family, edge)?;
    }
    Ok(())
}

// Adds the step of an edge, if its count is small.
pub(crate) fn enter_line(alloc: Global, family: &mut Family, edge: &Edge) -> Result<(), Memory>
    requires { (count : ℕ) × IsFamily count family.old }
    ensures same { OnOk result (AreSameMembers family.old family.new) }
    ensures family { OnOk result ((count : ℕ) → IsFamily count family.old → IsFamily count family.new) }
    ensures told { OnOk result ((known : List Variable) (flips : List Bool) (lines : List Arrow) →
        IsTold known flips lines edge.now.from edge.now.to edge.now.count → IsToldFamily known flips lines family.old →
        IsToldFamily known flips lines family.new) }
    ensures walked { OnOk result ((edges : List Arrow) → Contains edges edge.now → AreWalked family.old edges →
        AreWalked family.new edges) }
{
    let count = edge.count.capped();
    if count < 255 {
        family.add(alloc, edge.from, edge.to, count as u8)?;
    }
    Ok(())
}

// For each variable whether its class has a member with a letter more.
pub(crate) fn above(alloc: Global, frame: &Frame) -> Result<Vec<bool>, Memory>
    requires nodes { length frame.now.nodes.items ≡ length frame.now.named }
    ensures each { IfOk result (λ above. length above.items ≡ length frame.now.named) }
    ensures few { IfOk result (λ above. length above.items ≤ 4294967296) }
{
    let parents = parents(alloc, frame)?;
    let mut above = Vec::with_capacity(alloc, frame.named.len())?;
    for node in &frame.nodes {
        above.push(match node {
            Some(node) => flag(&parents, *node),
            None => false,
        })?;
    }
    Ok(above)
}

// For each class whether it has a member with a letter more.
fn parents(alloc: Global, frame: &Frame) -> Result<Vec<bool>, Memory>
    requires nodes { length frame.now.nodes.items ≡ length frame.now.named }
{
    let mut parents = vec![in alloc; false; class_count(&frame.nodes)]?;
    for number in 0..frame.named.len() {
        if let Origin::Longer(parent, _) = frame.named.origin(number as u32)
            && let Some(node) = frame.nodes[parent as usize]
        {
            parents[node as usize] = true;
        }
    }
    Ok(parents)
}

// For each variable whether it has a letter, and its class a member with a letter more, or few members. Of others no way is
// asked but by the searches that come behind.
pub(crate) fn below(alloc: Global, frame: &Frame) -> Result<Vec<bool>, Memory>
    requires nodes { length frame.now.nodes.items ≡ length frame.now.named }
    ensures each { IfOk result (λ below. length below.items ≡ length frame.now.named) }
    ensures few { IfOk result (λ below. length below.items ≤ 4294967296) }
{
    let above = above(alloc, frame)?;
    let sizes = sizes(alloc, &frame.nodes)?;
    let mut below = Vec::with_capacity(alloc, frame.named.len())?;
    for number in 0..frame.named.len() {
        below.push(match frame.named.origin(number as u32) {
            Origin::Longer(_, _) => above[number] || is_small(&sizes, frame.nodes[number]),
            Origin::Bare(_) => false,
        })?;
    }
    Ok(below)
}

// How many variables there are of each node.
fn sizes(alloc: Global, nodes: &[Option<u32>]) -> Result<Vec<usize>, Memory> {
    let mut sizes = vec![in alloc; 0usize; class_count(nodes)]?;
    for number in 0..nodes.len() {
        if let Some(node) = nodes[number] {
            sizes[node as usize] = sizes[node as usize].saturating_add(1);
        }
    }
    Ok(sizes)
}

// Whether a variable is of a node with few others.
fn is_small(sizes: &[usize], node: Option<u32>) -> bool {
    let Some(node) = node else {
        return false;
    };
    match sizes.get(node as usize) {
        Some(size) => *size <= SMALL,
        None => false,
    }
}

// The variables with a letter more than members of classes, in groups.
pub(crate) fn groups(alloc: Global, frame: &Frame, family: &Family) -> Result<Vec<Group>, Memory>
    requires { (count : ℕ) × IsFamily count family.now }
    ensures { IfOk result (λ groups. AreGroups family.now groups.items) }
{
    let mut places = BTreeMap::new(alloc);
    let mut groups = Vec::new(alloc);
    for number in 0..frame.named.len() {
        enter_kid(
            alloc,
            frame,
            family,
            &mut places,
            &mut groups,
            number as u32,
        )?;
    }
    Ok(groups)
}

// Puts a variable into its group, if it has a letter more than a member of a class, or than what has the letter of a pointer more.
fn enter_kid(
    alloc: Global,
    frame: &Frame,
    family: &Family,
    places: &mut Places,
    groups: &mut Vec<Group>,
    number: u32,
) -> Result<(), Memory>
    requires number { number < length frame.now.named }
    requires family { (count : ℕ) × IsFamily count family.now }
    requires groups { AreGroups family.now groups.old.items }
    ensures { OnOk result (AreGroups family.now groups.new.items) }
{
    let Origin::Longer(parent, letter) = frame.named.origin(number) else {
        return Ok(());
    };
    if let Some(home) = home_of(family, parent) {
        let kid = Kid {
            parent: home.index / 2,
            through: None,
            variable: number,
        };
        return put_kid(alloc, places, groups, home.class, kind(letter), kid);
    }
    let Some(home) = pointed_home(frame, family, parent) else {
        return Ok(());
    };
    let kid = Kid {
        parent: home.index / 2,
        through: Some(parent),
        variable: number,
    };
    put_kid(alloc, places, groups, home.class, kind_behind(letter), kid)
}

// Where a variable's state stands that keeps the order.
fn home_of(family: &Family, variable: u32) -> Option<Home>
    requires { (count : ℕ) × IsFamily count family.now }
    ensures { IfSome result (λ home. (s : Place) × IsHome family.now s home) }
{
    family.home(State {
        variable,
        contra: false,
    })
}

// Where the state stands of what a variable has the letter of a pointer more than.
fn pointed_home(frame: &Frame, family: &Family, variable: u32) -> Option<Home>
    requires number { variable < length frame.now.named }
    requires family { (count : ℕ) × IsFamily count family.now }
    ensures { IfSome result (λ home. (s : Place) × IsHome family.now s home) }
{
    match frame.named.origin(variable) {
        Origin::Longer(root, letter) => {
            if is_pointer(letter) {
                home_of(family, root)
            } else {
                None
            }
        }
        Origin::Bare(_) => None,
    }
}

// Puts a variable into the group of a class and a kind of letters.
fn put_kid(
    alloc: Global,
    places: &mut Places,
    groups: &mut Vec<Group>,
    class: usize,
    kind: Kind,
    kid: Kid,
) -> Result<(), Memory>
    ensures { OnOk result ((family : Classes) → IsKid family class kid → AreGroups family groups.old.items →
        AreGroups family groups.new.items) }
{
    if let Some(place) = places.get(&(class, kind)) {
        let place = *place;
        if place < groups.len() && groups[place].class == class {
            join(&mut groups[place], kid)?;
            return Ok(());
        }
    }
    places.insert((class, kind), groups.len())?;
    let mut kids = Sequence::new(alloc);
    kids.push(kid)?;
    groups.push(Group { class, kids })?;
    Ok(())
}

// Puts a variable behind those of a group.
fn join(group: &mut Group, kid: Kid) -> Result<(), Memory>
    ensures class { OnOk result (group.new.class ≡ group.old.class) }
    ensures kids { OnOk result (group.new.kids ≡ group.old.kids ++ kid ∷ []) }
{
    group.kids.push(kid)
}

// What a letter has in common with those to which something is pushed from it.
fn kind(letter: Label) -> Kind {
    match letter {
        Label::In(Loc::Arg(n)) => (0, u32::from(n), 0),
        Label::In(Loc::Stack(offset)) => (1, offset, 0),
        Label::Out(n) => (2, u32::from(n), 0),
        Label::Load | Label::Store => (3, 0, 0),
        Label::Field(bits, offset) => (4, u32::from(bits), offset),
    }
}

// The same of a letter behind that of a pointer.
fn kind_behind(letter: Label) -> Kind {
    let (kind, number, offset) = kind(letter);
    (kind.saturating_add(5), number, offset)
}

// The edges that are pushed from the ways of a family, without spare ones.
fn pushed(
    alloc: Global,
    frame: &Frame,
    groups: &[Group],
    halves: &[u8],
    family: &Family,
) -> Result<Vec<Edge>, Memory>
    requires distinct { AreDistinct frame.now.named }
    requires nodes { length frame.now.nodes.items ≡ length frame.now.named }
    requires family { IsFamily (length frame.now.named) family.now }
    requires groups { AreGroups family.now groups.now }
    ensures told { IfOk result (λ edges. (lines : List Arrow) → IsToldFamily frame.now.named frame.now.flips.items lines family.now →
        AreTold frame.now.named frame.now.flips.items lines edges.items) }
    ensures within { IfOk result (λ edges. AreWithin frame.now.named edges.items) }
{
    let mut pushed = pushed_ways(alloc, frame, groups, halves, family)?;
    let edges = edges_of(alloc, &mut pushed)?;
    Ok(edges)
}

// The ways that are pushed from those of a family.
fn pushed_ways(
    alloc: Global,
    frame: &Frame,
    groups: &[Group],
    halves: &[u8],
    family: &Family,
) -> Result<Family, Memory>
    requires distinct { AreDistinct frame.now.named }
    requires nodes { length frame.now.nodes.items ≡ length frame.now.named }
    requires family { IsFamily (length frame.now.named) family.now }
    requires groups { AreGroups family.now groups.now }
    ensures family { IfOk result (λ pushed. IsFamily (length frame.now.named) pushed) }
    ensures told { IfOk result (λ pushed. (lines : List Arrow) →
        IsToldFamily frame.now.named frame.now.flips.items lines family.now →
        IsToldFamily frame.now.named frame.now.flips.items lines pushed) }
{
    let below = below(alloc, frame)?;
    let nodes = group_nodes(alloc, groups, frame.named.len())?;
    let mut pushed = Family::of(alloc, &nodes, &below)?;
    for group in groups {
        push_apart(alloc, frame, group, halves, family, &mut pushed)?;
    }
    Ok(pushed)
}

// For each of so many variables the number of its group, if it has one. What is pushed stays within these.
pub(crate) fn group_nodes(
    alloc: Global,
    groups: &[Group],
    count: usize,
) -> Result<Vec<Option<u32>>, Memory>
    ensures { IfOk result (λ nodes. length nodes.items ≡ count) }
{
    let mut nodes = vec![in alloc; None; count]?;
    for number in 0..groups.len() {
        for kid in groups[number].kids.items() {
            let variable = kid.variable as usize;
            if variable < nodes.len() {
                nodes[variable] = u32::try_from(number).ok();
            }
        }
    }
    Ok(nodes)
}

// The steps of all classes that aren't spare, as edges.
fn edges_of(alloc: Global, family: &mut Family) -> Result<Vec<Edge>, Memory>
    requires { (count : ℕ) × IsFamily count family.old }
    ensures told { IfOk result (λ edges. (known : List Variable) (flips : List Bool) (lines : List Arrow) →
        IsToldFamily known flips lines family.old → AreTold known flips lines edges.items) }
    ensures within { IfOk result (λ edges. (known : List Variable) → IsFamily (length known) family.old →
        AreWithin known edges.items) }
{
    let mut edges = Vec::new(alloc);
    for class in 0..family.members.len() {
        family.close(alloc, class)?;
        emit(
            alloc,
            family.members[class].items(),
            &family.grids[class],
            &mut edges,
        )?;
    }
    Ok(edges)
}

// Puts the steps of a class behind edges, but for those that turn a state round.
fn emit(alloc: Global, members: &[u32], grid: &Grid, edges: &mut Vec<Edge>) -> Result<(), Memory>
    requires { size_of grid.now ≡ 2 * length members.now }
    ensures { OnOk result (AreMore (IsStepOf members.now grid.now) edges.old.items edges.new.items) }
{
    for index in 0..grid.len() {
        emit_from(alloc, members, grid, index, edges)?;
    }
    Ok(())
}

// Puts the steps from a place behind edges, but for those that turn its state round.
fn emit_from(
    alloc: Global,
    members: &[u32],
    grid: &Grid,
    index: usize,
    edges: &mut Vec<Edge>,
) -> Result<(), Memory>
    requires size { size_of grid.now ≡ 2 * length members.now }
    requires index { index < size_of grid.now }
    ensures { OnOk result (AreMore (IsStepFrom members.now grid.now index) edges.old.items edges.new.items) }
{
    for step in grid.steps(index) {
        emit_step(alloc, members, index, *step, edges)?;
    }
    Ok(())
}

// Puts a step behind edges, if it doesn't turn a state round.
fn emit_step(
    alloc: Global,
    members: &[u32],
    index: usize,
    step: Step,
    edges: &mut Vec<Edge>,
) -> Result<(), Memory>
    requires from { index < 2 * length members.now }
    requires to { step.to < 2 * length members.now }
    ensures { OnOk result (AreMore (IsOfStep members.now index step) edges.old.items edges.new.items) }
{
    let from = member_state(members, index);
    let to = member_state(members, step.to);
    if from.variable != to.variable {
        edges.push(Edge {
            from,
            to,
            count: Count::small(alloc, u32::from(step.count)),
        })?;
    }
    Ok(())
}

// The state at a place.
pub(crate) fn member_state(members: &[u32], place: usize) -> State
    requires { place < 2 * length members.now }
    ensures { result ≡ state_at members.now place }
{
    State {
        variable: members[place / 2],
        contra: place % 2 == 1,
    }
}
