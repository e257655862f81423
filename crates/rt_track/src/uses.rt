// What uses of registers take.
ghost use Rattle.std.specs.Prelude.{◌≡◌, ◌<◌, IfOk, OnOk, IsTrue, ◌↔◌, Some, length};
ghost use Rattle.rt_flow.specs.Sources.{shared_count_of, shared_in, IsSourceIn};
ghost use Rattle.rt_track.specs.Candidates.{entry_value};
ghost use Rattle.rt_track.specs.Inside.Inputs.{def_input, node_or, AreAllUses, AreKnown, AreUses, Finds, Gathers, Keeps};
ghost use Rattle.rt_flow.specs.declared.source.Source.TheVariants.{Shared};

use crate::nodes::Input;
use crate::ops::Ops;
use crate::value::Value;
use rt_base::{Memory, Sequence};
use rt_flow::{Def, Reach, Source};
use std::alloc::Global;

// What a register holds at the entry.
fn entry_value(reg: u8) -> Value
    ensures { result ≡ entry_value reg }
{
    if reg == 2 {
        Value::Frame(0)
    } else {
        Value::Entry(reg, 0)
    }
}

// What a definition of a register has.
fn def_input(ops: &Ops, def: Def, reg: u8) -> Input
    ensures { result ≡ def_input ops.now def reg }
{
    match def {
        Def::Entry => Input::Known(entry_value(reg)),
        Def::At(site) => match ops.number(site, reg) {
            Some(number) => Input::Node(number),
            None => Input::Known(Value::At(site, reg, 0)),
        },
    }
}

// What definitions of a register have, joined.
fn gathered(
    ops: &Ops,
    joins: &mut Vec<(Input, Input)>,
    defs: &[Def],
    reg: u8,
) -> Result<Input, Memory>
    ensures input { IfOk result (λ x. Gathers ops.now joins.new.items reg x defs.now) }
    ensures keeps { OnOk result (Keeps joins.old.items joins.new.items) }
{
    let mut all = Input::Nothing;
    for def in defs {
        let number = ops.count() + joins.len();
        joins.push((all, def_input(ops, *def, reg)))?;
        all = Input::Node(number);
    }
    Ok(all)
}

// What the definitions in a shared list have.
fn shared_input(
    reach: &Reach,
    ops: &Ops,
    joins: &mut Vec<(Input, Input)>,
    known: &mut Vec<Option<Input>>,
    number: u32,
    reg: u8,
) -> Result<Input, Memory>
    requires within { number < shared_count_of reach.now }
    requires each { length known.old.items ≡ shared_count_of reach.now }
    requires are_known { AreKnown reach.now ops.now joins.old.items reg known.old.items }
    ensures { IfOk result (λ x. Finds reach.now ops.now reg (Shared number) joins.old.items joins.new.items known.new.items x) }
{
    if let Some(input) = known[number as usize] {
        return Ok(input);
    }
    let input = gathered(ops, joins, reach.shared(number), reg)?;
    known[number as usize] = Some(input);
    Ok(input)
}

// What the definitions of a source have.
fn source_input(
    reach: &Reach,
    ops: &Ops,
    joins: &mut Vec<(Input, Input)>,
    known: &mut Vec<Option<Input>>,
    source: Source,
    reg: u8,
) -> Result<Input, Memory>
    requires within { IsSourceIn reach.now source }
    requires each { length known.old.items ≡ shared_count_of reach.now }
    requires are_known { AreKnown reach.now ops.now joins.old.items reg known.old.items }
    ensures { IfOk result (λ x. Finds reach.now ops.now reg source joins.old.items joins.new.items known.new.items x) }
{
    match source {
        Source::Own(site) => Ok(def_input(ops, Def::At(site), reg)),
        Source::Shared(number) => shared_input(reach, ops, joins, known, number, reg),
    }
}

// Whether a source is the last one.
fn is_last(last: Option<Source>, source: Source) -> bool
    ensures { IsTrue result ↔ (last ≡ Some source) }
{
    match last {
        Some(last) => last == source,
        None => false,
    }
}

// What uses of a register other than x0 take: a change where the source changes.
fn changes(
    alloc: Global,
    reach: &Reach,
    ops: &Ops,
    joins: &mut Vec<(Input, Input)>,
    reg: u8,
) -> Result<Vec<(u32, Input)>, Memory>
    requires { 0 < reg }
    ensures uses { IfOk result (λ changes. AreUses reach.now ops.now joins.new.items reg changes.items) }
    ensures keeps { OnOk result (Keeps joins.old.items joins.new.items) }
{
    let mut known = vec![in alloc; None; reach.shared_count()]?;
    let mut changes = Vec::new(alloc);
    let mut last = None;
    for site in 0..reach.sites() {
        let source = reach.source(site, i64::from(reg));
        if is_last(last, source) {
            continue;
        }
        let input = source_input(reach, ops, joins, &mut known, source, reg)?;
        changes.push((site, input))?;
        last = Some(source);
    }
    Ok(changes)
}

// The same for each register; x0 holds 0.
fn uses_of(
    alloc: Global,
    reach: &Reach,
    ops: &Ops,
    joins: &mut Vec<(Input, Input)>,
    reg: u8,
) -> Result<Vec<(u32, Input)>, Memory>
    ensures uses { IfOk result (λ changes. AreUses reach.now ops.now joins.new.items reg changes.items) }
    ensures keeps { OnOk result (Keeps joins.old.items joins.new.items) }
{
    if reg == 0 {
        let mut changes = Vec::new(alloc);
        changes.push((0, Input::Known(Value::Const(0))))?;
        return Ok(changes);
    }
    changes(alloc, reach, ops, joins, reg)
}

/// What the uses of each register take, from site to site, and the joins of what definitions in shared lists have. The error
/// is out of memory.
pub(crate) fn uses(
    alloc: Global,
    reach: &Reach,
    ops: &Ops,
    joins: &mut Vec<(Input, Input)>,
) -> Result<Vec<Sequence<(u32, Input)>>, Memory>
    ensures { IfOk result (λ uses. AreAllUses reach.now ops.now joins.new.items uses.items) }
{
    let mut uses = Vec::with_capacity(alloc, 32)?;
    for reg in 0..32 {
        let changes = uses_of(alloc, reach, ops, joins, reg)?;
        uses.push(Sequence::from_vec(changes))?;
    }
    Ok(uses)
}
