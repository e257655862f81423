// Tables of the ways along edges, made from those of the variables from which edges lead on.
ghost use Rattle.std.specs.Prelude.{◌≡◌, ◌+◌, ◌*◌, ◌<◌, ◌≤◌, ℕ, Contains, Some, length, IfOk, OnOk};
ghost use Rattle.rt_grid.specs.Tables.{size_of, AreWithin};
ghost use Rattle.rt_sat.specs.declared.family.Family.{Family as Classes};
ghost use Rattle.rt_sat.specs.declared.family.Home.{Home as Stand};
ghost use Rattle.rt_sat.specs.Hints.{grid_of, AreInClass, AreSameMembers, IsFamily};
ghost use Rattle.rt_sat.specs.Inside.Filling.{AreInFamily, AreTurnedIn, IsInFamily};

use crate::family::{Family, Home, place};
use crate::hints::enter_line;
use crate::pushing::{Frame, flag};
use crate::state::{Edge, State};
use rt_base::Memory;
use rt_grid::{Grid, NONE, Step};
use std::alloc::Global;

// The places of a state, and of that which is turned round.
#[derive(Clone, Copy)]
struct Turned {
    forth: usize,
    back: usize,
}

// The ways along edges, in tables of the classes of variables whose flags are set. Those between the variables of other tables
// are taken from there, where counts matter, and with them those from and to others are found soon. Whether all ways along the
// edges are found isn't promised. The error is out of memory.
pub(crate) fn filled(
    alloc: Global,
    frame: &Frame,
    edges: &[Edge],
    used: &[bool],
    inner: &Family,
) -> Result<Family, Memory>
    requires each { length used.now ≡ length frame.now.nodes.items }
    requires few { length frame.now.nodes.items ≤ 4294967296 }
    requires inner { (count : ℕ) × IsFamily count inner.now }
    ensures { IfOk result (IsFamily (length frame.now.nodes.items)) }
{
    let mut family = Family::of(alloc, &frame.nodes, used)?;
    for class in 0..inner.members.len() {
        copy_class(alloc, frame, &mut family, inner, class)?;
    }
    for edge in edges {
        enter_outer(alloc, frame, &mut family, inner, edge)?;
    }
    close_all(alloc, &mut family)?;
    for class in 0..inner.members.len() {
        turn_class(alloc, frame, &mut family, inner, class)?;
    }
    close_all(alloc, &mut family)?;
    Ok(family)
}

// Takes in what the steps of all classes lead to.
fn close_all(alloc: Global, family: &mut Family) -> Result<(), Memory>
    requires { (count : ℕ) × IsFamily count family.old }
    ensures same { OnOk result (AreSameMembers family.old family.new) }
    ensures family { OnOk result ((count : ℕ) → IsFamily count family.old → IsFamily count family.new) }
{
    for class in 0..family.members.len() {
        family.close(alloc, class)?;
    }
    Ok(())
}

// Takes in the ways between the members of a class of other tables, if counts matter there.
fn copy_class(
    alloc: Global,
    frame: &Frame,
    family: &mut Family,
    inner: &Family,
    class: usize,
) -> Result<(), Memory>
    requires family { (count : ℕ) × IsFamily count family.old }
    requires inner { (count : ℕ) × IsFamily count inner.now }
    requires class { class < length inner.now.members.items }
    ensures same { OnOk result (AreSameMembers family.old family.new) }
    ensures family { OnOk result ((count : ℕ) → IsFamily count family.old → IsFamily count family.new) }
{
    let homes = homes(alloc, frame, family, inner.members[class].items())?;
    copy_rows(alloc, family, &inner.grids[class], &homes)
}

// Where the states of members stand, two for each, as far as counts matter there.
fn homes(
    alloc: Global,
    frame: &Frame,
    family: &Family,
    members: &[u32],
) -> Result<Vec<Option<Home>>, Memory>
    requires { (count : ℕ) × IsFamily count family.now }
    ensures length { IfOk result (λ homes. length homes.items ≡ 2 * length members.now) }
    ensures inside { IfOk result (λ homes. AreInFamily family.now homes.items) }
{
    let mut homes = Vec::with_capacity(alloc, 2 * members.len())?;
    for variable in members {
        homes.push(home(frame, family, *variable, false))?;
        homes.push(home(frame, family, *variable, true))?;
    }
    Ok(homes)
}

// Where a state stands, if counts matter at its variable.
fn home(frame: &Frame, family: &Family, variable: u32, contra: bool) -> Option<Home>
    requires { (count : ℕ) × IsFamily count family.now }
    ensures { (h : Stand) → result ≡ Some h → IsInFamily family.now h }
{
    if !flag(&frame.matters, variable) {
        return None;
    }
    family.home(State { variable, contra })
}

// Takes in the counts of a grid's rows, whose places stand where the homes say.
fn copy_rows(
    alloc: Global,
    family: &mut Family,
    grid: &Grid,
    homes: &[Option<Home>],
) -> Result<(), Memory>
    requires family { (count : ℕ) × IsFamily count family.old }
    requires size { size_of grid.now ≡ length homes.now }
    requires homes { AreInFamily family.old homes.now }
    ensures same { OnOk result (AreSameMembers family.old family.new) }
    ensures family { OnOk result ((count : ℕ) → IsFamily count family.old → IsFamily count family.new) }
{
    for place in 0..homes.len() {
        if let Some(home) = homes[place] {
            let ways = ways(alloc, grid.row(place), homes, home.class)?;
            family.lower(alloc, home, &ways)?;
        }
    }
    Ok(())
}

// The counts of a row that are known, to where its places stand in a class.
fn ways(
    alloc: Global,
    row: &[u8],
    homes: &[Option<Home>],
    class: usize,
) -> Result<Vec<Step>, Memory>
    requires { length row.now ≡ length homes.now }
    ensures { IfOk result (λ ways. (family : Classes) → AreInFamily family homes.now → AreInClass family class ways.items) }
{
    let mut ways = Vec::with_capacity(alloc, row.len())?;
    for place in 0..row.len() {
        if let Some(home) = homes[place]
            && home.class == class
            && row[place] != NONE
        {
            ways.push(Step {
                to: home.index,
                count: row[place],
            })?;
        }
    }
    Ok(ways)
}

// Adds the step of an edge, if its start isn't a member of other tables, or counts don't matter there.
fn enter_outer(
    alloc: Global,
    frame: &Frame,
    family: &mut Family,
    inner: &Family,
    edge: &Edge,
) -> Result<(), Memory>
    requires family { (count : ℕ) × IsFamily count family.old }
    requires inner { (count : ℕ) × IsFamily count inner.now }
    ensures same { OnOk result (AreSameMembers family.old family.new) }
    ensures family { OnOk result ((count : ℕ) → IsFamily count family.old → IsFamily count family.new) }
{
    if flag(&frame.matters, edge.from.variable) && inner.home(edge.from).is_some() {
        return Ok(());
    }
    enter_line(alloc, family, edge)?;
    Ok(())
}

// Takes in the ways from the members of a class of other tables, where counts matter, to the states of its variables that aren't
// members: a way to a state is one from that which is turned round.
fn turn_class(
    alloc: Global,
    frame: &Frame,
    family: &mut Family,
    inner: &Family,
    class: usize,
) -> Result<(), Memory>
    requires family { (count : ℕ) × IsFamily count family.old }
    requires inner { (count : ℕ) × IsFamily count inner.now }
    requires class { class < length inner.now.members.items }
    ensures same { OnOk result (AreSameMembers family.old family.new) }
    ensures family { OnOk result ((count : ℕ) → IsFamily count family.old → IsFamily count family.new) }
{
    let homes = homes(alloc, frame, family, inner.members[class].items())?;
    if class >= family.members.len() {
        return Ok(());
    }
    let outer = outer(alloc, family.members[class].items(), inner)?;
    for index in 0..inner.members[class].len() {
        turn_member(alloc, family, &homes, index, class, &outer)?;
    }
    Ok(())
}

// The places of the states of members that aren't members of other tables.
fn outer(alloc: Global, members: &[u32], inner: &Family) -> Result<Vec<Turned>, Memory>
    requires few { length members.now ≤ 6000 }
    requires inner { (count : ℕ) × IsFamily count inner.now }
    ensures { IfOk result (λ outer. AreTurnedIn (2 * length members.now) outer.items) }
{
    let mut outer = Vec::new(alloc);
    for index in 0..members.len() {
        let state = State {
            variable: members[index],
            contra: false,
        };
        if inner.home(state).is_none() {
            let forth = place(index, false);
            let back = place(index, true);
            outer.push(Turned { forth, back })?;
            outer.push(Turned {
                forth: back,
                back: forth,
            })?;
        }
    }
    Ok(outer)
}

// Takes in the ways from both states of a member of other tables to states that aren't.
fn turn_member(
    alloc: Global,
    family: &mut Family,
    homes: &[Option<Home>],
    index: usize,
    class: usize,
    outer: &[Turned],
) -> Result<(), Memory>
    requires family { (count : ℕ) × IsFamily count family.old }
    requires homes { AreInFamily family.old homes.now }
    requires index { 2 * index + 1 < length homes.now }
    requires class { class < length family.old.members.items }
    requires outer { AreTurnedIn (size_of (grid_of family.old class)) outer.now }
    ensures same { OnOk result (AreSameMembers family.old family.new) }
    ensures family { OnOk result ((count : ℕ) → IsFamily count family.old → IsFamily count family.new) }
{
    let Some(forth) = homes[2 * index] else {
        return Ok(());
    };
    let Some(back) = homes[2 * index + 1] else {
        return Ok(());
    };
    if forth.class != class || back.class != class {
        return Ok(());
    }
    turn_row(alloc, family, forth, back, outer)?;
    turn_row(alloc, family, back, forth, outer)
}

// Takes in ways from a place, which are those to the place of the state that is turned round.
fn turn_row(
    alloc: Global,
    family: &mut Family,
    home: Home,
    turned: Home,
    outer: &[Turned],
) -> Result<(), Memory>
    requires family { (count : ℕ) × IsFamily count family.old }
    requires home { IsInFamily family.old home }
    requires turned { turned.index < size_of (grid_of family.old home.class) }
    requires outer { AreTurnedIn (size_of (grid_of family.old home.class)) outer.now }
    ensures same { OnOk result (AreSameMembers family.old family.new) }
    ensures family { OnOk result ((count : ℕ) → IsFamily count family.old → IsFamily count family.new) }
{
    let ways = column(alloc, &family.grids[home.class], turned.index, outer)?;
    family.lower(alloc, home, &ways)
}

// The counts that are known of ways to a place, as those of ways from it to where the states that are turned round stand.
fn column(alloc: Global, grid: &Grid, place: usize, outer: &[Turned]) -> Result<Vec<Step>, Memory>
    requires place { place < size_of grid.now }
    requires outer { AreTurnedIn (size_of grid.now) outer.now }
    ensures { IfOk result (λ ways. AreWithin (size_of grid.now) ways.items) }
{
    let mut ways = Vec::with_capacity(alloc, outer.len())?;
    for turned in outer {
        let count = grid.row(turned.back)[place];
        if count != NONE {
            ways.push(Step {
                to: turned.forth,
                count,
            })?;
        }
    }
    Ok(ways)
}
