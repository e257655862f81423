// The labels of the arguments that callees take.
ghost use Rattle.std.specs.Prelude.{◌≡◌, ◌++◌, ◌∷◌, [], ◌||◌, if◌then◌else◌, All, IfOk, OnOk};
ghost use Rattle.rt_lines.specs.Words.{IsLabel};
ghost use Rattle.rt_table.specs.Inside.Parts.{IsPassed, port_register_labels};
ghost use Rattle.rt_scheme.specs.Ports.{has_port};
ghost use Rattle.rt_table.specs.Table.{is_covered, port_arguments, port_words, register_arguments, stack_arguments};

use rt_base::Memory;
use rt_insn::registers::A0;
use rt_lines::{Label, Loc};
use rt_liveness::Call;
use rt_scheme::Ports;
use std::alloc::Global;
use std::collections::BTreeSet;

// Adds a label, where it is to be added.
fn push_if(added: bool, label: Label, labels: &mut Vec<Label>) -> Result<(), Memory>
    ensures { OnOk result (labels.new.items ≡ labels.old.items ++ (if added then label ∷ [] else [])) }
{
    if added {
        labels.push(label)?;
    }
    Ok(())
}

/// The labels of the arguments in registers that a callee takes.
pub(crate) fn register_arguments(alloc: Global, call: &Call) -> Result<Vec<Label>, Memory>
    ensures labels { IfOk result (λ labels. labels.items ≡ register_arguments call.now) }
    ensures good { IfOk result (λ labels. All IsLabel labels.items) }
{
    let mut labels = Vec::new(alloc);
    for number in 0..8 {
        let takes = call.takes_register(A0 + number);
        push_if(takes, Label::In(Loc::Arg(number)), &mut labels)?;
    }
    Ok(labels)
}

/// Adds the labels of the arguments in words of the stack at some offsets.
pub(crate) fn push_words(offsets: &[u32], labels: &mut Vec<Label>) -> Result<(), Memory>
    ensures { OnOk result (labels.new.items ≡ labels.old.items ++ stack_arguments offsets.now) }
{
    for offset in offsets {
        labels.push(Label::In(Loc::Stack(*offset)))?;
    }
    Ok(())
}

// Whether a label has a port.
fn has_port(ports: &Ports, label: Label) -> bool
    ensures { result ≡ has_port ports.now label }
{
    ports.items().iter().any(|port| port.0 == label)
}

// Whether the argument register of a number is among the first ones that a signature says that the function takes.
fn is_covered(covered: Option<u8>, number: u8) -> bool
    ensures { result ≡ is_covered covered number }
{
    match covered {
        Some(count) => number < count,
        None => false,
    }
}

// Whether the argument register of a number has a port, or is covered.
fn is_taken(ports: &Ports, covered: Option<u8>, number: u8) -> bool
    ensures { result ≡ (has_port ports.now (Label.In (Loc.Arg number)) || is_covered covered number) }
{
    has_port(ports, Label::In(Loc::Arg(number))) || is_covered(covered, number)
}

/// The labels of the arguments that a scheme takes, by its ports and how many argument registers its signature covers: a0 to a7
/// and then words of the stack, ascending. The error is out of memory.
pub(crate) fn port_arguments(
    alloc: Global,
    ports: &Ports,
    covered: Option<u8>,
) -> Result<Vec<Label>, Memory>
    ensures labels { IfOk result (λ labels. labels.items ≡ port_arguments ports.now covered) }
    ensures passed { IfOk result (λ labels. All IsPassed labels.items) }
{
    let mut labels = port_registers(alloc, ports, covered)?;
    let words = port_words(alloc, ports)?;
    let offsets: Vec<u32> = words.iter().copied().collect(alloc)?;
    push_words(&offsets, &mut labels)?;
    Ok(labels)
}

// The labels of the arguments in registers that have ports or are covered.
fn port_registers(alloc: Global, ports: &Ports, covered: Option<u8>) -> Result<Vec<Label>, Memory>
    ensures { IfOk result (λ labels. labels.items ≡ port_register_labels ports.now covered) }
{
    let mut labels = Vec::new(alloc);
    for number in 0..8 {
        let label = Label::In(Loc::Arg(number));
        let takes = is_taken(ports, covered, number);
        push_if(takes, label, &mut labels)?;
    }
    Ok(labels)
}

// The offsets of the words of the stack among ports.
fn port_words(alloc: Global, ports: &Ports) -> Result<BTreeSet<u32>, Memory>
    ensures { IfOk result (λ words. words.keys ≡ port_words ports.now) }
{
    let mut words = BTreeSet::new(alloc);
    for (label, _) in ports.items() {
        if let Label::In(Loc::Stack(offset)) = label {
            words.insert(*offset)?;
        }
    }
    Ok(words)
}
