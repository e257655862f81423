// Hubs for nodes that may have a common lower node, or a common upper one. Nothing is promised of them: whether they are
// enough is checked once arcs are closed.

use crate::found::Found;
use crate::frame::Frame;
use crate::sorting::Sorts;
use crate::spreading::spread;
use crate::turning::is_pointer;
use indexmap::IndexMap;
use rt_base::{Memory, Sequence};
use rt_lines::{Label, Variance};
use std::alloc::{AllocError, Global};

// A node that lies below others, or above them.
#[derive(Drop)]
pub(crate) struct Hub {
    pub(crate) is_lower: bool,
    pub(crate) members: Sequence<u32>,
    // What it is for, if it isn't for all of a group.
    part: Option<Part>,
}

// Tops of a group that are reached from one node, or from which it is reached.
#[derive(Drop)]
struct Part {
    group: usize,
    is_forth: bool,
    tops: Vec<bool>,
}

// A node of a class, and what is behind its letter.
#[derive(Clone, Copy)]
struct Top {
    node: u32,
    behind: u32,
}

// The nodes of a class with one letter, or with loads and stores.
#[derive(Drop)]
struct Group {
    label: Label,
    tops: Sequence<Top>,
}

// Hubs for loads and stores of what can be read and written through, and for what is behind letters of such: one below all of
// a group, and one above.
pub(crate) fn first_hubs(alloc: Global, frame: &Frame, sorts: &Sorts) -> Result<Vec<Hub>, Memory> {
    let groups = groups(alloc, frame, sorts, true)?;
    let mut hubs = Vec::new(alloc);
    for group in &groups {
        for is_lower in [true, false] {
            let members = behind(alloc, group)?;
            hubs.push(Hub {
                is_lower,
                members,
                part: None,
            })?;
        }
    }
    Ok(hubs)
}

// The nodes behind the letter of a group.
fn behind(alloc: Global, group: &Group) -> Result<Sequence<u32>, Memory> {
    let mut behind = Sequence::new(alloc);
    for top in group.tops.items() {
        behind.push(top.behind)?;
    }
    Ok(behind)
}

// For each node the tops of a group that it reaches along arcs, or that reach it.
#[derive(Drop)]
struct Reached {
    tops: Vec<Sequence<u32>>,
    // What one search finds.
    found: Found,
}

impl Reached {
    // Of so many nodes, none.
    fn new(alloc: Global, count: usize) -> Result<Reached, Memory> {
        let mut tops = Vec::with_capacity(alloc, count)?;
        for _ in 0..count {
            tops.push(Sequence::new(alloc))?;
        }
        let found = Found::new(alloc, count)?;
        Ok(Reached { tops, found })
    }

    // Those of the node.
    fn of(&self, node: u32) -> &[u32] {
        match self.tops.get(node as usize) {
            Some(tops) => tops.items(),
            None => &[],
        }
    }

    // Looks for the tops of another group, along arcs or the other way.
    fn seek(
        &mut self,
        alloc: Global,
        frame: &Frame,
        group: &Group,
        is_forth: bool,
        stands: &[bool],
    ) -> Result<(), Memory> {
        self.clear(alloc);
        let arcs = if is_forth { &frame.back } else { &frame.arcs };
        let mut index: u32 = 0;
        for top in group.tops.items() {
            self.found.clear();
            self.found.insert(top.node)?;
            spread(arcs, stands, true, &mut self.found)?;
            self.note(index)?;
            index = index.saturating_add(1);
        }
        Ok(())
    }

    // Takes all away.
    fn clear(&mut self, alloc: Global) {
        for tops in self.tops.iter_mut() {
            if tops.len() > 0 {
                *tops = Sequence::new(alloc);
            }
        }
    }

    // Notes a top at what was found.
    fn note(&mut self, top: u32) -> Result<(), Memory> {
        for node in self.found.numbers() {
            let node = *node as usize;
            if node < self.tops.len() {
                self.tops[node].push(top)?;
            }
        }
        Ok(())
    }

    // The nodes by how many tops they have.
    fn by_count(&self, alloc: Global, most: usize) -> Result<Vec<Sequence<u32>>, Memory> {
        let mut nodes = Vec::with_capacity(alloc, most.saturating_add(1))?;
        for _ in 0..most.saturating_add(1) {
            nodes.push(Sequence::new(alloc))?;
        }
        let mut node: u32 = 0;
        for tops in &self.tops {
            let count = tops.len();
            if count > 1 && count < nodes.len() {
                nodes[count].push(node)?;
            }
            node = node.saturating_add(1);
        }
        Ok(nodes)
    }
}

// Adds hubs for the other groups, as far as tops are reached from one node for which there is no hub. Whether there was one.
pub(crate) fn widen(
    alloc: Global,
    frame: &Frame,
    sorts: &Sorts,
    stands: &[bool],
    hubs: &mut Vec<Hub>,
) -> Result<bool, Memory> {
    let groups = groups(alloc, frame, sorts, false)?;
    let mut reached = Reached::new(alloc, frame.arcs.len())?;
    let mut any = false;
    for number in 0..groups.len() {
        for is_forth in [false, true] {
            reached.seek(alloc, frame, &groups[number], is_forth, stands)?;
            if widen_group(alloc, &groups[number], number, is_forth, &reached, hubs)? {
                any = true;
            }
        }
    }
    Ok(any)
}

// Adds hubs for a group by what is reached, those first of which most is. Whether there was one.
fn widen_group(
    alloc: Global,
    group: &Group,
    number: usize,
    is_forth: bool,
    reached: &Reached,
    hubs: &mut Vec<Hub>,
) -> Result<bool, Memory> {
    let sets = sets(alloc, group, reached)?;
    let nodes = reached.by_count(alloc, group.tops.len())?;
    let mut any = false;
    for less in 0..nodes.len() {
        let count = nodes.len() - 1 - less;
        if widen_by(
            alloc,
            group,
            number,
            is_forth,
            reached,
            &sets,
            nodes[count].items(),
            hubs,
        )? {
            any = true;
        }
    }
    Ok(any)
}

// Adds hubs for a group by some of the nodes. Whether there was one.
fn widen_by(
    alloc: Global,
    group: &Group,
    number: usize,
    is_forth: bool,
    reached: &Reached,
    sets: &[Vec<bool>],
    nodes: &[u32],
    hubs: &mut Vec<Hub>,
) -> Result<bool, Memory> {
    let mut any = false;
    let mut last: &[u32] = &[];
    for node in nodes {
        let tops = reached.of(*node);
        if tops != last && !is_covered(sets, tops) {
            let part = Part {
                group: number,
                is_forth,
                tops: set(alloc, group.tops.len(), tops)?,
            };
            if add_part(alloc, group, part, tops, hubs)? {
                any = true;
            }
        }
        last = tops;
    }
    Ok(any)
}

// For each top a flag for each top that it reaches.
fn sets(alloc: Global, group: &Group, reached: &Reached) -> Result<Vec<Vec<bool>>, Memory> {
    let mut sets = Vec::with_capacity(alloc, group.tops.len())?;
    for top in group.tops.items() {
        let tops = reached.of(top.node);
        sets.push(set(alloc, group.tops.len(), tops)?)?;
    }
    Ok(sets)
}

// A flag for each of so many tops.
fn set(alloc: Global, count: usize, tops: &[u32]) -> Result<Vec<bool>, Memory> {
    let mut set = vec![in alloc; false; count]?;
    for top in tops {
        let top = *top as usize;
        if top < set.len() {
            set[top] = true;
        }
    }
    Ok(set)
}

// Whether one of the sets has all of the tops.
fn is_covered(sets: &[Vec<bool>], tops: &[u32]) -> bool {
    for set in sets {
        if has_all(set, tops) {
            return true;
        }
    }
    false
}

// Whether a set has all of the tops.
fn has_all(set: &[bool], tops: &[u32]) -> bool {
    for top in tops {
        match set.get(*top as usize) {
            Some(true) => {}
            Some(false) | None => return false,
        }
    }
    true
}

// Adds a hub for a part of a group, unless there is one that has all of it.
fn add_part(
    alloc: Global,
    group: &Group,
    part: Part,
    tops: &[u32],
    hubs: &mut Vec<Hub>,
) -> Result<bool, Memory> {
    for index in 0..hubs.len() {
        if has_part(&hubs[index], &part, tops) {
            return Ok(false);
        }
    }
    let is_lower = part.is_forth != (group.label.variance() == Variance::Contra);
    let mut members = Sequence::new(alloc);
    for top in tops {
        if let Some(top) = group.tops.items().get(*top as usize) {
            members.push(top.behind)?;
        }
    }
    let hub = Hub {
        is_lower,
        members,
        part: Some(part),
    };
    hubs.push(hub)?;
    Ok(true)
}

// Whether a hub has all of a part of its group.
fn has_part(hub: &Hub, part: &Part, tops: &[u32]) -> bool {
    match &hub.part {
        Some(own) => {
            own.group == part.group && own.is_forth == part.is_forth && has_all(&own.tops, tops)
        }
        None => false,
    }
}

// The groups of which all members may have a common lower node and a common upper one, or the others. Counts matter at each of
// their nodes.
fn groups(alloc: Global, frame: &Frame, sorts: &Sorts, whole: bool) -> Result<Vec<Group>, Memory> {
    let Ok(count) = u32::try_from(sorts.classes.len()) else {
        return Err(AllocError);
    };
    let mut places = IndexMap::new(alloc);
    let mut groups = Vec::new(alloc);
    for node in 0..count {
        if let Some(key) = key_of(frame, sorts, node, whole)
            && let Some(Some((parent, _))) = frame.origins.get(node as usize)
        {
            let top = Top {
                node: *parent,
                behind: node,
            };
            enter(alloc, &mut places, &mut groups, key, top)?;
        }
    }
    Ok(groups)
}

// The class of what a node is made of, and the letter, or one for loads and stores, if counts matter at the node, and it's in
// such a group.
fn key_of(frame: &Frame, sorts: &Sorts, node: u32, whole: bool) -> Option<(u32, Label)> {
    if !sorts.is_marked(node as usize) {
        return None;
    }
    let (parent, label) = (*frame.origins.get(node as usize)?)?;
    let class = sorts.class(parent)?;
    let pointers = is_pointer(label) && sorts.is_flip(parent as usize);
    if whole != (pointers || sorts.is_joined(class)) {
        return None;
    }
    Some((class, if pointers { Label::Load } else { label }))
}

// Puts a top into its group.
fn enter(
    alloc: Global,
    places: &mut IndexMap<(u32, Label), usize>,
    groups: &mut Vec<Group>,
    key: (u32, Label),
    top: Top,
) -> Result<(), Memory> {
    if let Some(place) = places.get(&key) {
        let place = *place;
        if place < groups.len() {
            groups[place].tops.push(top)?;
        }
        return Ok(());
    }
    places.insert(key, groups.len())?;
    let mut tops = Sequence::new(alloc);
    tops.push(top)?;
    groups.push(Group { label: key.1, tops })?;
    Ok(())
}
