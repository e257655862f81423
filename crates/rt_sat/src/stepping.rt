// The steps that are pushed from rows of tables.
ghost use Rattle.std.specs.Prelude.{◌≡◌, ◌<◌, ◌≤◌, ℕ, Bool, List, Contains, IfOk, IfSome};
ghost use Rattle.std.specs.Prelude.{length};
ghost use Rattle.rt_grid.specs.declared.grid.Step.{Step as Pace};
ghost use Rattle.rt_lines.specs.declared.variable.Dtv.{Dtv as Variable};
ghost use Rattle.rt_sat.specs.declared.family.Family.{Family as Classes};
ghost use Rattle.rt_sat.specs.declared.state.Edge.{Edge as Arrow};
ghost use Rattle.rt_sat.specs.Inside.Links.{AreEndsFrom, AreTied};
ghost use Rattle.rt_sat.specs.Hints.{members_of, state_at, AreInRows, AreToldSteps, IsEnd, IsInRows, IsPassedOn, IsTold, IsToldRow};
ghost use Rattle.rt_sat.specs.Numbered.{sign_of};

use crate::gathering::End;
use crate::halving::{between, half};
use crate::pushing::{sign, turns};
use rt_base::Memory;
use rt_grid::{NONE, Step};
use std::alloc::Global;

// How many kinds of ends there are: by the sign of the state, and by whether the rest behind it turns the order round.
const KINDS: usize = 4;

// How many counts there are, that of no way among them.
const COUNTS: usize = 256;

// What is read of each end that is pushed to, apart from what is read of few of them. Effort alone rests on these.
#[derive(Clone, Copy)]
struct Spot {
    // The place of the root's state in its class.
    place: u16,
    // Where the end stands in its class.
    index: u16,
    // Which kind the end is of.
    kind: u8,
}

// What is read of ends that are pushed to. Effort alone rests on these.
#[derive(Drop)]
pub(crate) struct Spots {
    spots: Vec<Spot>,
}

impl Spots {
    // Of some ends.
    pub(crate) fn of(alloc: Global, ends: &[End]) -> Result<Spots, Memory> {
        let mut spots = Vec::with_capacity(alloc, ends.len())?;
        for end in ends {
            spots.push(Spot {
                place: short(end.place),
                index: short(end.home.index),
                kind: kind(end),
            })?;
        }
        Ok(Spots { spots })
    }

    // Whether nothing is pushed to the end at an index from a row: there is no way, or what is pushed is no less than what is
    // known. What is pushed from each count to ends of each kind begins at a place.
    fn is_idle(&self, halves: &[u8], row: &[u8], known: &[u8], from: u16, i: usize) -> bool {
        let Some(spot) = self.spots.get(i) else {
            return false;
        };
        let Some(way) = row.get(usize::from(spot.place)) else {
            return false;
        };
        let Some(least) = known.get(usize::from(spot.index)) else {
            return false;
        };
        let place = usize::from(from) + usize::from(spot.kind) * COUNTS + usize::from(*way);
        match halves.get(place) {
            Some(half) => *half >= *least,
            None => *way >= *least,
        }
    }
}

// The number, or the greatest, at which nothing is read.
fn short(number: usize) -> u16 {
    match u16::try_from(number) {
        Ok(short) => short,
        Err(_) => u16::MAX,
    }
}

// Which kind an end is of, or the state with the letter of a pointer that it is behind.
fn kind(end: &End) -> u8
    ensures { result < 4 }
{
    let (turned, contra) = match end.pointed {
        Some(letter) => {
            let sign = letter.variance().times(sign(end.parent.contra));
            (turns(sign), end.parent.contra)
        }
        None => (end.turned, end.child.contra),
    };
    match (turned, contra) {
        (false, false) => 0,
        (false, true) => 1,
        (true, false) => 2,
        (true, true) => 3,
    }
}

// Whether a half is pushed to an end, or to what it is behind.
fn is_halved(end: &End) -> bool {
    match end.pointed {
        Some(_) => end.root_flip,
        None => end.flip && end.pointer,
    }
}

// Where what is pushed from an end begins among the halves, or behind them, if it isn't a half.
fn begin(source: &End) -> u16
    ensures { result ≤ 4096 }
{
    if is_halved(source) {
        u16::from(kind(source)) * 1024
    } else {
        4096
    }
}

// For each two kinds of ends of pointers what is pushed from each count. Effort alone rests on these.
pub(crate) fn halves(alloc: Global) -> Result<Vec<u8>, Memory> {
    let mut halves = Vec::new(alloc);
    for first in 0..KINDS {
        for second in 0..KINDS {
            for count in 0..COUNTS {
                halves.push(pushed_half(first, second, count as u8))?;
            }
        }
    }
    Ok(halves)
}

// What is pushed from a count between ends of two kinds.
fn pushed_half(first: usize, second: usize, count: u8) -> u8 {
    if count == NONE {
        return NONE;
    }
    let differ = first % 2 != second % 2;
    let half = half(count, first >= 2, second >= 2, differ);
    let is_same = (first == 0 || first == 3) == (second == 0 || second == 3);
    if is_same && count < half { count } else { half }
}

// The steps that are pushed from the row of an end's parent to others, as far as they are less than what is known.
pub(crate) fn gathered(
    alloc: Global,
    targets: &[End],
    spots: &Spots,
    halves: &[u8],
    row: &[u8],
    source: &End,
    known: &[u8],
) -> Result<Vec<Step>, Memory>
    requires { AreInRows row.now source.now.home.class known.now targets.now }
    ensures inside { IfOk result (λ found. (s : Pace) → Contains found.items s → s.to < length known.now) }
    ensures told { IfOk result (λ found. (known : List Variable) (flips : List Bool) (lines : List Arrow) (members : List ℕ)
        (into : Classes) → AreEndsFrom known flips members into source.now targets.now →
        AreTied known flips lines source.now targets.now →
        IsToldRow known flips lines source.now.root members row.now →
        AreToldSteps known flips lines source.now.stand into source.now.home.class found.items) }
{
    let from = begin(source);
    let mut found = Vec::new(alloc);
    for i in 0..targets.len() {
        let idle = spots.is_idle(halves, row, known, from, i);
        if let Some(step) = pushed_step(row, source, &targets[i], idle, known) {
            found.push(step)?;
        }
    }
    Ok(found)
}

// The least count between the parents of ends that one between their roots gives.
fn way_of(source: &End, target: &End, rooted: u8) -> Option<u8>
    requires { rooted < 255 }
    ensures few { IfSome result (λ k. k < 255) }
    ensures passed { IfSome result (λ k. IsPassedOn source.now.root_flip source.now.pointed target.now.pointed rooted
        (sign_of source.now.parent.contra) (sign_of target.now.parent.contra) k) }
{
    let Some(first) = source.pointed else {
        return if target.pointed.is_none() {
            Some(rooted)
        } else {
            None
        };
    };
    let second = target.pointed?;
    let way = between(
        source.root_flip,
        first,
        second,
        rooted,
        source.parent.contra,
        target.parent.contra,
    )?;
    if way == NONE { None } else { Some(way) }
}

// The step that is pushed from the count of ways between the roots of ends, if it is less than what is known.
fn pushed_step(row: &[u8], source: &End, target: &End, idle: bool, known: &[u8]) -> Option<Step>
    requires { IsInRows row.now source.now.home.class known.now target.now }
    ensures inside { IfSome result (λ s. s.to < length known.now) }
    ensures told { IfSome result (λ s. (known : List Variable) (flips : List Bool) (lines : List Arrow) (members : List ℕ)
        (into : Classes) → IsEnd known flips members into source.now → IsEnd known flips members into target.now →
        IsTold known flips lines source.now.stand source.now.child 0 →
        IsTold known flips lines target.now.child target.now.stand 0 →
        IsToldRow known flips lines source.now.root members row.now →
        IsTold known flips lines source.now.stand (state_at (members_of into source.now.home.class) s.to) s.count) }
{
    if idle {
        return None;
    }
    let rooted = row[target.place];
    if rooted == NONE || target.home.class != source.home.class {
        return None;
    }
    let least = known[target.home.index];
    if least == 0 {
        return None;
    }
    let way = way_of(source, target, rooted)?;
    let count = between(
        source.flip,
        source.letter,
        target.letter,
        way,
        source.child.contra,
        target.child.contra,
    )?;
    if count >= least || (count > 0 && !source.matters) {
        return None;
    }
    Some(Step {
        to: target.home.index,
        count,
    })
}
