// Which existential is for which argument or result.
ghost use Rattle.std.specs.Prelude.{◌≡◌, IfOk, OnOk, fold, option_to_list};
ghost use Rattle.indexmap.specs.IndexSet.{insert_key};
ghost use Rattle.rt_lines.specs.FirstFree.{first_free};
ghost use Rattle.rt_scheme.specs.SplitExistentials.{existential_for, interface_eq, is_other, other_interfaces};
ghost use Rattle.rt_scheme.specs.Splitting.{interface_of, interfaces_of, split_line, split_variable};

use crate::existential::existential;
use crate::interface::Interface;
use indexmap::IndexSet;
use rt_base::Memory;
use rt_lines::{Base, Dtv, Line, first_free};
use std::alloc::{AllocError, Global};

// The existentials of the arguments and results of other procedures, numbered in order from the first number on.
#[derive(Drop)]
pub struct SplitExistentials {
    // The procedure that isn't split.
    own: u32,
    // The number of the first existential.
    first: u64,
    // The arguments and results.
    found: IndexSet<Interface>,
}

impl SplitExistentials {
    // The existentials for the arguments and results in the lines of procedures other than the own one.
    pub fn new(alloc: Global, own: u32, lines: &[Line]) -> Result<SplitExistentials, Memory>
        ensures own { IfOk result (λ split. split.own ≡ own) }
        ensures found { IfOk result (λ split. split.found.keys ≡ other_interfaces own lines.now) }
        ensures first { IfOk result (λ split. split.first ≡ first_free lines.now) }
    {
        let found = interfaces(alloc, own, lines)?;
        let first = first_free(lines);
        Ok(SplitExistentials { own, first, found })
    }

    // The line with an existential for each argument and result.
    pub fn line(&self, alloc: Global, line: &Line) -> Result<Line, Memory>
        ensures { IfOk result (λ made. made ≡ split_line (is_other self.now.own)
            (existential_for self.now.first self.now.found.keys) line.now) }
    {
        line.map(|x| self.variable(alloc, x))
    }

    // The variable with an existential where it begins with an argument or a result.
    fn variable(&self, alloc: Global, x: &Dtv) -> Result<Dtv, Memory>
        ensures { IfOk result (λ made. made ≡ split_variable (is_other self.now.own)
            (existential_for self.now.first self.now.found.keys) x.now) }
    {
        match x.base {
            Base::Proc(procedure) => match x.word.items() {
                [label, rest @ ..] if procedure != self.own => {
                    let number = self.number_of(Interface {
                        procedure,
                        label: *label,
                    })?;
                    existential(alloc, number, rest)
                }
                _ => x.copy(),
            },
            Base::Global(_) | Base::Exist(_) | Base::Outer(_) => x.copy(),
        }
    }

    // The number of the existential of an argument or a result. One that doesn't fit needs more memory than there is.
    fn number_of(&self, interface: Interface) -> Result<u32, Memory>
        ensures { IfOk result (λ number. number ≡ existential_for self.now.first self.now.found.keys interface) }
    {
        let index = self
            .found
            .get_index_of(&interface)
            .unwrap_or(self.found.len());
        let Some(number) = self.first.checked_add(index as u64) else {
            return Err(AllocError);
        };
        match u32::try_from(number) {
            Ok(number) => Ok(number),
            Err(_) => Err(AllocError),
        }
    }
}

// The arguments and results in the lines of procedures other than the own one, each once, in the order in which they
// are first named.
fn interfaces(alloc: Global, own: u32, lines: &[Line]) -> Result<IndexSet<Interface>, Memory>
    ensures { IfOk result (λ found. found.keys ≡ other_interfaces own lines.now) }
{
    let mut found = IndexSet::new(alloc);
    for line in lines {
        note_line(&mut found, own, line)?;
    }
    Ok(found)
}

// Adds the arguments and results in a line.
fn note_line(found: &mut IndexSet<Interface>, own: u32, line: &Line) -> Result<(), Memory>
    ensures { OnOk result (found.new.keys ≡ fold (insert_key interface_eq) found.old.keys (interfaces_of (is_other own) line.now)) }
{
    for x in line.sides() {
        note(found, own, x)?;
    }
    Ok(())
}

// Adds the argument or the result that the variable begins with, if it does.
fn note(found: &mut IndexSet<Interface>, own: u32, x: &Dtv) -> Result<(), Memory>
    ensures { OnOk result (found.new.keys ≡ fold (insert_key interface_eq) found.old.keys
        (interface_of (is_other own) x.now.base x.now.word)) }
{
    if let Some(interface) = interface_of(own, x) {
        found.insert(interface)?;
    }
    Ok(())
}

// The argument or the result that the variable begins with, if it does.
fn interface_of(own: u32, x: &Dtv) -> Option<Interface>
    ensures { option_to_list result ≡ interface_of (is_other own) x.now.base x.now.word }
{
    match x.base {
        Base::Proc(procedure) => match x.word.items() {
            [label, ..] if procedure != own => Some(Interface {
                procedure,
                label: *label,
            }),
            _ => None,
        },
        Base::Global(_) | Base::Exist(_) | Base::Outer(_) => None,
    }
}
