// Instances of schemes.
ghost use Rattle.std.specs.Prelude.{◌≡◌, ◌+◌, ◌<◌, ◌^◌, [], ◌∷◌, ◌++◌, IfOk, OnOk, fold, length, map, option_to_list};
ghost use Rattle.indexmap.specs.IndexSet.{insert_key};
ghost use Rattle.rt_rules.specs.Alike.{map_line};
ghost use Rattle.rt_scheme.specs.Instances.{IsInstance, instanced, new_count, number_of};
ghost use Rattle.rt_scheme.specs.Instances.{origin_eq, origin_of, origins, origins_of, ports_from};

use crate::existential::existential;
use crate::origin::Origin;
use crate::scheme::Scheme;
use indexmap::IndexSet;
use rt_base::{Memory, Sequence};
use rt_lines::{Base, Dtv, Label, Line, Lines};
use std::alloc::Global;

/// Labels, each with the number of an existential.
pub type Ports = Sequence<(Label, u32)>;

/// A scheme's lines with existentials of their own.
#[derive(Drop)]
pub struct Instance {
    /// The lines. In them an existential is in place of the scheme's procedure and the label after it.
    pub lines: Lines,
    /// For each label of the procedure's arguments and results that the scheme names the existential that is for it,
    /// in the order of these.
    pub ports: Ports,
    /// The number after those of the instance's existentials.
    pub next_free: u32,
}

/// The instance of a scheme whose existentials are numbered from `first_free` on, in the order in which what they
/// are instances of is first named in the scheme's lines, the left side of a line before its right. The error is out of memory.
pub fn instantiate(alloc: Global, scheme: &Scheme, first_free: u32) -> Result<Instance, Memory>
    requires { first_free + new_count scheme.now.base scheme.now.lines < 2 ^ 32 }
    ensures { IfOk result (IsInstance scheme.now.base scheme.now.lines first_free) }
{
    let found = origins(alloc, scheme.base, scheme.lines.items())?;
    let lines = renamed_lines(alloc, scheme.base, first_free, &found, scheme.lines.items())?;
    let ports = ports(alloc, first_free, &found)?;
    let next_free = first_free + found.len() as u32;
    Ok(Instance {
        lines,
        ports,
        next_free,
    })
}

// What of lines is instantiated, each once, in the order in which it is first named.
pub fn origins(alloc: Global, own: u32, lines: &[Line]) -> Result<IndexSet<Origin>, Memory>
    ensures { IfOk result (λ found. found.keys ≡ origins own lines.now) }
{
    let mut found = IndexSet::new(alloc);
    for line in lines {
        note_line(&mut found, own, line)?;
    }
    Ok(found)
}

// Adds what of a line is instantiated.
fn note_line(found: &mut IndexSet<Origin>, own: u32, line: &Line) -> Result<(), Memory>
    ensures { OnOk result (found.new.keys ≡ fold (insert_key origin_eq) found.old.keys (origins_of own line.now)) }
{
    for x in line.sides() {
        note(found, own, x)?;
    }
    Ok(())
}

// Adds what of a variable is instantiated.
fn note(found: &mut IndexSet<Origin>, own: u32, x: &Dtv) -> Result<(), Memory>
    ensures { OnOk result (found.new.keys ≡ fold (insert_key origin_eq) found.old.keys (origin_of own x.now.base x.now.word)) }
{
    if let Some(origin) = origin_of(own, x) {
        found.insert(origin)?;
    }
    Ok(())
}

// What of a variable is instantiated.
fn origin_of(own: u32, x: &Dtv) -> Option<Origin>
    ensures { option_to_list result ≡ origin_of own x.now.base x.now.word }
{
    match x.base {
        Base::Proc(n) => match x.word.items() {
            [label, ..] if n == own => Some(Origin::Port(*label)),
            _ => None,
        },
        Base::Exist(n) => Some(Origin::Bound(n)),
        Base::Global(_) | Base::Outer(_) => None,
    }
}

// The lines in the instance.
fn renamed_lines(
    alloc: Global,
    own: u32,
    first_free: u32,
    found: &IndexSet<Origin>,
    lines: &[Line],
) -> Result<Lines, Memory>
    requires { first_free + length found.now.keys < 2 ^ 32 }
    ensures { IfOk result (λ r. r ≡ map (map_line (instanced own first_free found.now.keys)) lines.now) }
{
    let mut renamed = Vec::with_capacity(alloc, lines.len())?;
    for line in lines {
        renamed.push(renamed_line(alloc, own, first_free, found, line)?)?;
    }
    Ok(Sequence::from_vec(renamed))
}

// A line in the instance.
fn renamed_line(
    alloc: Global,
    own: u32,
    first_free: u32,
    found: &IndexSet<Origin>,
    line: &Line,
) -> Result<Line, Memory>
    requires { first_free + length found.now.keys < 2 ^ 32 }
    ensures { IfOk result (λ r. r ≡ map_line (instanced own first_free found.now.keys) line.now) }
{
    line.map(|x| renamed_variable(alloc, own, first_free, found, x))
}

// A variable in the instance.
fn renamed_variable(
    alloc: Global,
    own: u32,
    first_free: u32,
    found: &IndexSet<Origin>,
    x: &Dtv,
) -> Result<Dtv, Memory>
    requires { first_free + length found.now.keys < 2 ^ 32 }
    ensures { IfOk result (λ y. y ≡ instanced own first_free found.now.keys x.now) }
{
    match x.base {
        Base::Proc(n) => match x.word.items() {
            [label, rest @ ..] if n == own => {
                let number = number_of(first_free, found, Origin::Port(*label));
                existential(alloc, number, rest)
            }
            _ => x.copy(),
        },
        Base::Exist(n) => {
            let number = number_of(first_free, found, Origin::Bound(n));
            existential(alloc, number, x.word.items())
        }
        Base::Global(_) | Base::Outer(_) => x.copy(),
    }
}

// The number of an existential in the instance.
fn number_of(first_free: u32, found: &IndexSet<Origin>, origin: Origin) -> u32
    requires { first_free + length found.now.keys < 2 ^ 32 }
    ensures { result ≡ number_of first_free found.now.keys origin }
{
    let place = found.get_index_of(&origin).unwrap_or(found.len());
    first_free + place as u32
}

// The labels among what is instantiated, each with its existential.
pub fn ports(alloc: Global, first_free: u32, found: &IndexSet<Origin>) -> Result<Ports, Memory>
    requires { first_free + length found.now.keys < 2 ^ 32 }
    ensures { IfOk result (λ ports. ports ≡ ports_from first_free found.now.keys) }
{
    let mut ports = Ports::new(alloc);
    for (place, origin) in found.as_slice().iter().enumerate() {
        push_port(&mut ports, *origin, first_free + place as u32)?;
    }
    Ok(ports)
}

// Adds an existential with its label, if it is for one.
fn push_port(ports: &mut Ports, origin: Origin, number: u32) -> Result<(), Memory>
    ensures { OnOk result (ports.new ≡ ports.old ++ ports_from number (origin ∷ [])) }
{
    match origin {
        Origin::Port(label) => ports.push((label, number)),
        Origin::Bound(_) => Ok(()),
    }
}
