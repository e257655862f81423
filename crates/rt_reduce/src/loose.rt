// `<=` lines whose sides don't have one shape by some lines, and which others go round them. Effort alone rests on these.

use crate::parting::pointed;
use rt_base::{Memory, Sequence};
use rt_lines::Line;
use rt_shape::Shape;
use std::alloc::Global;

// A line that joins a node with another one.
#[derive(Clone, Copy)]
struct Link {
    line: usize,
    to: u32,
}

// `<=` lines between two nodes of a shape.
#[derive(Drop)]
pub(crate) struct Loose {
    // For each line the nodes of its sides, if these are two.
    ends: Vec<Option<(u32, u32)>>,
    // What the lines join each node with.
    links: Vec<Sequence<Link>>,
}

impl Loose {
    // Those of the lines whose sides have two nodes of a shape in which stores count as loads.
    pub(crate) fn of(alloc: Global, lines: &[Line], shape: &Shape) -> Result<Loose, Memory> {
        let mut ends = Vec::with_capacity(alloc, lines.len())?;
        let mut links = no_links(alloc, shape.node_count() as usize)?;
        for i in 0..lines.len() {
            let found = ends_of(alloc, shape, &lines[i])?;
            if let Some((left, right)) = found {
                join(&mut links, left, i, right)?;
                join(&mut links, right, i, left)?;
            }
            ends.push(found)?;
        }
        Ok(Loose { ends, links })
    }

    // Whether the line at an index is one of them.
    pub(crate) fn has(&self, i: usize) -> bool {
        self.ends_at(i).is_some()
    }

    // Whether others of them lead from one side of the line at an index to the other side.
    pub(crate) fn goes_round(&self, alloc: Global, i: usize) -> Result<bool, Memory> {
        let Some((from, to)) = self.ends_at(i) else {
            return Ok(false);
        };
        let mut found = vec![in alloc; false; self.links.len()]?;
        let mut order = Vec::new(alloc);
        order.push(from)?;
        for next in 0..self.links.len() {
            let Some(node) = order.get(next).copied() else {
                return Ok(false);
            };
            if node == to {
                return Ok(true);
            }
            self.follow(node, i, &mut found, &mut order)?;
        }
        Ok(false)
    }

    // The nodes of the sides of the line at an index, if these are two.
    fn ends_at(&self, i: usize) -> Option<(u32, u32)> {
        *self.ends.get(i)?
    }

    // Adds what lines but one join a node with, as far as it isn't found.
    fn follow(
        &self,
        node: u32,
        line: usize,
        found: &mut [bool],
        order: &mut Vec<u32>,
    ) -> Result<(), Memory> {
        let Some(links) = self.links.get(node as usize) else {
            return Ok(());
        };
        for link in links.items() {
            if link.line != line
                && let Some(flag) = found.get_mut(link.to as usize)
                && !*flag
            {
                *flag = true;
                order.push(link.to)?;
            }
        }
        Ok(())
    }
}

// For each of so many nodes nothing that it is joined with.
fn no_links(alloc: Global, count: usize) -> Result<Vec<Sequence<Link>>, Memory> {
    let mut links = Vec::with_capacity(alloc, count)?;
    for _ in 0..count {
        links.push(Sequence::new(alloc))?;
    }
    Ok(links)
}

// The nodes of the line's sides, if it is a `<=` line and these are two.
fn ends_of(alloc: Global, shape: &Shape, line: &Line) -> Result<Option<(u32, u32)>, Memory> {
    let Line::Sub(x, y) = line else {
        return Ok(None);
    };
    let left = pointed(alloc, x)?;
    let right = pointed(alloc, y)?;
    let ends = match (shape.node(&left), shape.node(&right)) {
        (Some(from), Some(to)) if from != to => Some((from, to)),
        _ => None,
    };
    Ok(ends)
}

// Notes that a line joins a node with another one.
fn join(links: &mut Vec<Sequence<Link>>, node: u32, line: usize, to: u32) -> Result<(), Memory> {
    if let Some(own) = links.get_mut(node as usize) {
        own.push(Link { line, to })?;
    }
    Ok(())
}
