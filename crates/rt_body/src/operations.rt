// What definitions of registers compute.
ghost use Rattle.std.specs.Prelude.{◌≡◌, ◌<◌, ◌^◌, ℕ, All, Contains, IfOk, OnOk, length};
ghost use Rattle.rt_track.specs.Operations.{op_in, ops_sites};
ghost use Rattle.rt_track.specs.Placed.{NamesRegisters};
ghost use Rattle.rt_body.specs.Actions.{defined_by, op_of};
ghost use Rattle.rt_body.specs.Readable.{HasOpRegisters};
ghost use Rattle.rt_body.specs.Readings.{action_at, op_at};

use crate::action::Action;
use rt_base::Memory;
use rt_track::{Op, Ops};
use std::alloc::Global;

// Gives an operation to each of some registers at a site.
fn set_each(ops: &mut Ops, site: u32, registers: &[u8], op: Op) -> Result<(), Memory>
    requires site { site < ops_sites ops.old }
    requires registers { All (λ register. register < 32) registers.now }
    requires named { NamesRegisters op }
    ensures sites { OnOk result (ops_sites ops.new ≡ ops_sites ops.old) }
    ensures given { OnOk result ((r : ℕ) → Contains registers.now r → op_in ops.new site r ≡ op) }
    ensures rest { OnOk result ((r : ℕ) → (Contains registers.now r → ⊥) → op_in ops.new site r ≡ op_in ops.old site r) }
    ensures others { OnOk result ((s r : ℕ) → (s ≡ site → ⊥) → op_in ops.new s r ≡ op_in ops.old s r) }
{
    for register in registers {
        ops.set(site, *register, op)?;
    }
    Ok(())
}

// Gives the operation of a site's action, if it isn't a value of its own, to each register that the site defines.
fn set_defined(alloc: Global, ops: &mut Ops, site: u32, action: Action) -> Result<(), Memory>
    requires site { site < ops_sites ops.old }
    requires registers { HasOpRegisters action }
    requires own { (r : ℕ) → op_in ops.old site r ≡ Op.Own }
    ensures sites { OnOk result (ops_sites ops.new ≡ ops_sites ops.old) }
    ensures given { OnOk result ((r : ℕ) → Contains (defined_by action) r → op_in ops.new site r ≡ op_of action) }
    ensures rest { OnOk result ((r : ℕ) → (Contains (defined_by action) r → ⊥) → op_in ops.new site r ≡ Op.Own) }
    ensures others { OnOk result ((s r : ℕ) → (s ≡ site → ⊥) → op_in ops.new s r ≡ op_in ops.old s r) }
{
    match action.op() {
        Op::Own => Ok(()),
        op => set_each(ops, site, action.defined(alloc)?.items(), op),
    }
}

/// What the definitions of registers by actions compute. The error is out of memory.
pub(crate) fn operations(alloc: Global, actions: &[Action]) -> Result<Ops, Memory>
    requires few { length actions.now < 2 ^ 32 }
    requires registers { All HasOpRegisters actions.now }
    ensures sites { IfOk result (λ ops. ops_sites ops ≡ length actions.now) }
    ensures same { IfOk result (λ ops. (s r : ℕ) → Contains (defined_by (action_at actions.now s)) r →
        op_in ops s r ≡ op_at actions.now s r) }
    ensures rest { IfOk result
        (λ ops. (s r : ℕ) → (Contains (defined_by (action_at actions.now s)) r → ⊥) → op_in ops s r ≡ Op.Own) }
{
    let mut ops = Ops::new(alloc, actions.len() as u32)?;
    for (site, action) in actions.iter().enumerate() {
        set_defined(alloc, &mut ops, site as u32, *action)?;
    }
    Ok(ops)
}
