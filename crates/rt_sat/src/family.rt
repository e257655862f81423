// Variables in classes, with what is known of ways between their states.
ghost use Rattle.std.specs.Prelude.{◌≡◌, ◌+◌, ◌*◌, ◌<◌, ◌≤◌, ℕ, [], Bool, List, Contains, Some, IfOk, IfSome, OnOk};
ghost use Rattle.std.specs.Prelude.{length, slice_get, slice_index_or};
ghost use Rattle.rt_grid.specs.Tables.{size_of};
ghost use Rattle.rt_lines.specs.declared.variable.Dtv.{Dtv as Variable};
ghost use Rattle.rt_sat.specs.declared.state.Edge.{Edge as Arrow};
ghost use Rattle.rt_sat.specs.Counts.{digit_of};
ghost use Rattle.rt_sat.specs.Inside.Checks.{home_of, AreWalked};
ghost use Rattle.rt_sat.specs.Searches.{Walk};
ghost use Rattle.rt_sat.specs.Hints.{grid_of, no_table, AreInClass, AreMembers, AreSameMembers, IsFamily, IsHome, IsTold, IsToldFamily, IsTurning};

use crate::closing::no_numbers;
use crate::state::State;
use rt_base::{Memory, Sequence};
use rt_grid::{Grid, Step};
use std::alloc::Global;

// A class with more members takes in no other.
const MOST: usize = 6000;

// Where a state stands: its class, and its place there.
#[derive(Clone, Copy)]
pub(crate) struct Home {
    pub(crate) class: usize,
    pub(crate) index: usize,
}

// Classes of variables. Each has a grid with two places for each member, the second one for its state that turns the order
// round.
#[derive(Drop)]
pub(crate) struct Family {
    pub(crate) members: Vec<Sequence<u32>>,
    pub(crate) grids: Vec<Grid>,
    // Where each variable's state stands that keeps the order, if it is a member of a class.
    homes: Vec<Option<Home>>,
}

impl Family {
    // The classes of the variables whose flags are set: those of one node are of one class. No way is known but from a state to
    // itself and to the one that is turned round. The error is out of memory.
    pub(crate) fn of(alloc: Global, nodes: &[Option<u32>], used: &[bool]) -> Result<Family, Memory>
        requires each { length used.now ≡ length nodes.now }
        requires few { length nodes.now ≤ 4294967296 }
        ensures family { IfOk result (λ family. IsFamily (length nodes.now) family) }
        ensures told { IfOk result (λ family. (known : List Variable) (flips : List Bool) (lines : List Arrow) →
            length known ≡ length nodes.now → IsToldFamily known flips lines family) }
        ensures walked { IfOk result (λ family. (edges : List Arrow) → AreWalked family edges) }
    {
        let members = members(alloc, nodes, used)?;
        let homes = homes(alloc, &members, nodes.len())?;
        let grids = grids(alloc, &members)?;
        Ok(Family {
            members,
            grids,
            homes,
        })
    }

    // The same once more. The error is out of memory.
    pub(crate) fn copy(&self, alloc: Global) -> Result<Family, Memory>
        ensures members { IfOk result (AreSameMembers self.now) }
        ensures grids { IfOk result (λ copy. copy.grids.items ≡ self.now.grids.items) }
        ensures homes { IfOk result (λ copy. copy.homes.items ≡ self.now.homes.items) }
    {
        let members = members_copied(alloc, &self.members)?;
        let grids = grids_copied(alloc, &self.grids)?;
        let homes = self.homes.to_vec(alloc)?;
        Ok(Family {
            members,
            grids,
            homes,
        })
    }

    // Where a state stands, if its variable is a member of a class.
    pub(crate) fn home(&self, state: State) -> Option<Home>
        requires { (count : ℕ) × IsFamily count self.now }
        ensures home { IfSome result (IsHome self.now state) }
        ensures is { result ≡ home_of self.now state }
    {
        let home = (*self.homes.get(state.variable as usize)?)?;
        let members = self.members.get(home.class)?;
        if *members.items().get(home.index)? != state.variable {
            return None;
        }
        Some(Home {
            class: home.class,
            index: place(home.index, state.contra),
        })
    }

    // Adds a step between states, if these are of one class. The error is out of memory.
    pub(crate) fn add(
        &mut self,
        alloc: Global,
        from: State,
        to: State,
        count: u8,
    ) -> Result<(), Memory>
        requires { (count : ℕ) × IsFamily count self.old }
        ensures same { OnOk result (AreSameMembers self.old self.new) }
        ensures family { OnOk result ((count : ℕ) → IsFamily count self.old → IsFamily count self.new) }
        ensures told { OnOk result ((known : List Variable) (flips : List Bool) (lines : List Arrow) →
            IsTold known flips lines from to count → IsToldFamily known flips lines self.old → IsToldFamily known flips lines self.new) }
        ensures walked { OnOk result ((edges : List Arrow) → Walk edges from to count → AreWalked self.old edges →
            AreWalked self.new edges) }
    {
        let Some(left) = self.home(from) else {
            return Ok(());
        };
        let Some(right) = self.home(to) else {
            return Ok(());
        };
        if left.class == right.class {
            self.grids[left.class].add(alloc, left.index, right.index, count)?;
        }
        Ok(())
    }

    // Takes in counts of ways from a place, as far as they are less. The error is out of memory.
    pub(crate) fn lower(&mut self, alloc: Global, home: Home, ways: &[Step]) -> Result<(), Memory>
        requires family { (count : ℕ) × IsFamily count self.old }
        requires class { home.class < length self.old.members.items }
        requires place { home.index < size_of (grid_of self.old home.class) }
        requires ways { AreInClass self.old home.class ways.now }
        ensures same { OnOk result (AreSameMembers self.old self.new) }
        ensures family { OnOk result ((count : ℕ) → IsFamily count self.old → IsFamily count self.new) }
    {
        self.grids[home.class].lower(alloc, home.index, ways)?;
        Ok(())
    }

    // Takes in what the steps of a class lead to, once for each state from the first to the last and back. Whether a way became
    // shorter. The error is out of memory.
    pub(crate) fn sweep(&mut self, alloc: Global, class: usize) -> Result<bool, Memory>
        requires family { (count : ℕ) × IsFamily count self.old }
        requires class { class < length self.old.members.items }
        ensures same { OnOk result (AreSameMembers self.old self.new) }
        ensures family { OnOk result ((count : ℕ) → IsFamily count self.old → IsFamily count self.new) }
        ensures told { OnOk result ((known : List Variable) (flips : List Bool) (lines : List Arrow) →
            IsToldFamily known flips lines self.old → IsToldFamily known flips lines self.new) }
    {
        let shorter = self.grids[class].sweep(alloc)?;
        Ok(shorter)
    }

    // Forgets steps of a class without which its ways are as short. The error is out of memory.
    pub(crate) fn prune(&mut self, alloc: Global, class: usize) -> Result<(), Memory>
        requires family { (count : ℕ) × IsFamily count self.old }
        requires class { class < length self.old.members.items }
        ensures same { OnOk result (AreSameMembers self.old self.new) }
        ensures family { OnOk result ((count : ℕ) → IsFamily count self.old → IsFamily count self.new) }
        ensures told { OnOk result ((known : List Variable) (flips : List Bool) (lines : List Arrow) →
            IsToldFamily known flips lines self.old → IsToldFamily known flips lines self.new) }
    {
        self.grids[class].prune(alloc)?;
        Ok(())
    }

    // Takes in what the steps of a class lead to, and forgets those without which its ways are as short. The error is out of
    // memory.
    pub(crate) fn close(&mut self, alloc: Global, class: usize) -> Result<(), Memory>
        requires family { (count : ℕ) × IsFamily count self.old }
        requires class { class < length self.old.members.items }
        ensures same { OnOk result (AreSameMembers self.old self.new) }
        ensures family { OnOk result ((count : ℕ) → IsFamily count self.old → IsFamily count self.new) }
        ensures told { OnOk result ((known : List Variable) (flips : List Bool) (lines : List Arrow) →
            IsToldFamily known flips lines self.old → IsToldFamily known flips lines self.new) }
        ensures walked { OnOk result ((edges : List Arrow) → AreWalked self.old edges → AreWalked self.new edges) }
    {
        self.grids[class].close(alloc)?;
        self.grids[class].prune(alloc)?;
        Ok(())
    }
}

// The members of each class: of the variables whose flags are set those of one node, in order.
fn members(
    alloc: Global,
    nodes: &[Option<u32>],
    used: &[bool],
) -> Result<Vec<Sequence<u32>>, Memory>
    requires each { length used.now ≡ length nodes.now }
    requires few { length nodes.now ≤ 4294967296 }
    ensures { IfOk result (λ members. AreMembers (length nodes.now) members.items) }
{
    let mut members = no_numbers(alloc, class_count(nodes))?;
    for number in 0..nodes.len() {
        if let Some(node) = nodes[number]
            && used[number]
        {
            settle(&mut members, node as usize, number as u32)?;
        }
    }
    Ok(members)
}

// The members of each class once more.
fn members_copied(alloc: Global, members: &[Sequence<u32>]) -> Result<Vec<Sequence<u32>>, Memory>
    ensures { IfOk result (λ copies. copies.items ≡ members.now) }
{
    let mut copies = Vec::with_capacity(alloc, members.len())?;
    for class in members {
        let copy = class.items().to_vec(alloc)?;
        copies.push(Sequence::from_vec(copy))?;
    }
    Ok(copies)
}

// The grids once more.
fn grids_copied(alloc: Global, grids: &[Grid]) -> Result<Vec<Grid>, Memory>
    ensures { IfOk result (λ copies. copies.items ≡ grids.now) }
{
    let mut copies = Vec::with_capacity(alloc, grids.len())?;
    for grid in grids {
        copies.push(grid.copy(alloc)?)?;
    }
    Ok(copies)
}

// How many classes there are.
pub(crate) fn class_count(nodes: &[Option<u32>]) -> usize
    ensures { (i n : ℕ) → slice_get nodes.now i ≡ Some (Some n) → n < result }
{
    let mut count = 0;
    for node in nodes {
        count = counted(*node, count);
    }
    count
}

// A count, or the number after a node that isn't below it.
fn counted(node: Option<u32>, count: usize) -> usize
    ensures more { count ≤ result }
    ensures above { IfSome node (λ n. n < result) }
{
    match node {
        Some(node) if node as usize >= count => node as usize + 1,
        _ => count,
    }
}

// Puts a variable behind the members of a class, if this isn't full.
fn settle(members: &mut Vec<Sequence<u32>>, class: usize, number: u32) -> Result<(), Memory>
    requires { class < length members.old.items }
    ensures each { OnOk result (length members.new.items ≡ length members.old.items) }
    ensures members { OnOk result ((count : ℕ) → number < count → AreMembers count members.old.items →
        AreMembers count members.new.items) }
{
    if members[class].len() < MOST {
        members[class].push(number)?;
    }
    Ok(())
}

// Where the states of so many variables stand that keep the order.
fn homes(
    alloc: Global,
    members: &[Sequence<u32>],
    count: usize,
) -> Result<Vec<Option<Home>>, Memory> {
    let mut homes = vec![in alloc; None; count]?;
    for class in 0..members.len() {
        let members = members[class].items();
        for index in 0..members.len() {
            let number = members[index] as usize;
            if number < homes.len() {
                homes[number] = Some(Home { class, index });
            }
        }
    }
    Ok(homes)
}

// The place of a member's state.
pub(crate) fn place(index: usize, contra: bool) -> usize
    requires { index < 6000 }
    ensures { result ≡ 2 * index + digit_of contra }
{
    if contra { 2 * index + 1 } else { 2 * index }
}

// For each class a grid of its states, with steps that turn each round.
fn grids(alloc: Global, members: &[Sequence<u32>]) -> Result<Vec<Grid>, Memory>
    requires { (count : ℕ) × AreMembers count members.now }
    ensures each { IfOk result (λ grids. length grids.items ≡ length members.now) }
    ensures turning { IfOk result (λ grids. (class : ℕ) → class < length members.now →
        IsTurning (length (slice_index_or members.now class [])) (slice_index_or grids.items class no_table)) }
{
    let mut grids = Vec::with_capacity(alloc, members.len())?;
    for class in members {
        grids.push(turning(alloc, class.len())?)?;
    }
    Ok(grids)
}

// A grid of the states of so many variables, with steps that turn each round.
fn turning(alloc: Global, count: usize) -> Result<Grid, Memory>
    requires { count ≤ 6000 }
    ensures { IfOk result (IsTurning count) }
{
    let mut grid = Grid::new(alloc, 2 * count)?;
    for index in 0..count {
        grid.add(alloc, place(index, false), place(index, true), 1)?;
        grid.add(alloc, place(index, true), place(index, false), 1)?;
    }
    Ok(grid)
}
