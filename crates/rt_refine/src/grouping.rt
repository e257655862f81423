// Existentials with the same keys follow the least of them.
ghost use Rattle.std.specs.Prelude.{◌≡◌, IfOk};
ghost use Rattle.std.specs.BTreeMap.{get};
ghost use Rattle.std.specs.Ordering.{nat_cmp};
ghost use Rattle.rt_lines.specs.declared.variable.Base.{Base as TheBase};
ghost use Rattle.rt_refine.specs.Refinements.{moved};
ghost use Rattle.rt_refine.specs.Numbers.{HasNumber, IsNumbered};
ghost use Rattle.rt_refine.specs.Groups.{class_of, IsPut};

use rt_base::Memory;
use rt_lines::Base;
use std::collections::BTreeMap;

/// Existentials with the least members of their classes.
pub type Classes = BTreeMap<u32, u32>;

/// The first existentials with their keys.
pub type Leaders = BTreeMap<Vec<usize>, u32>;

/// The least member of the existential's class. It takes no memory.
pub fn class_of(classes: &Classes, existential: u32) -> u32
    ensures { result ≡ class_of (get nat_cmp classes.now) existential }
{
    match classes.get(&existential) {
        Some(class) => *class,
        None => existential,
    }
}

/// The base, an existential by the least member of its class. It takes no memory.
pub fn moved(classes: &Classes, base: Base) -> Base
    ensures { result ≡ moved (class_of (get nat_cmp classes.now)) base }
{
    match base {
        Base::Exist(n) => Base::Exist(class_of(classes, n)),
        Base::Proc(_) | Base::Global(_) | Base::Outer(_) => base,
    }
}

// The existential that leads those with the key, which is this one where there was none.
fn leader_of(leaders: &mut Leaders, key: Vec<usize>, existential: u32) -> Result<u32, Memory>
    ensures { IfOk result (λ v. IsNumbered key.items existential v (HasNumber nat_cmp leaders.old) (HasNumber nat_cmp leaders.new)) }
{
    if let Some(leader) = leaders.get(&key) {
        return Ok(*leader);
    }
    leaders.insert(key, existential)?;
    Ok(existential)
}

/// The existential follows the one that leads those with the key, which is this one where there was none. The error is out of
/// memory.
pub fn follow(
    leaders: &mut Leaders,
    classes: &mut Classes,
    key: Vec<usize>,
    existential: u32,
) -> Result<u32, Memory>
    ensures numbered { IfOk result (λ v. IsNumbered key.items existential v (HasNumber nat_cmp leaders.old)
        (HasNumber nat_cmp leaders.new)) }
    ensures put { IfOk result (λ v. IsPut existential v (get nat_cmp classes.old) (get nat_cmp classes.new)) }
{
    let leader = leader_of(leaders, key, existential)?;
    classes.insert(existential, leader)?;
    Ok(leader)
}
