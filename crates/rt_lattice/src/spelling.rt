// Names from strings.
ghost use Rattle.std.specs.Prelude.{◌≡◌, ◌↔◌, None, Some, IsTrue, Contains, OnOk, IfOk, IfErr};
ghost use Rattle.rt_lines.specs.Names.{IsName};
ghost use Rattle.rt_lattice.specs.declared.fault.LatFault.TheVariants.{Shape};
ghost use Rattle.rt_lattice.specs.Faults.{IsFaultOf, names_fault};

use crate::fault::LatFault;
use rt_base::Bytes;
use rt_lines::{Names, is_name};
use std::alloc::Global;

// The fault of a key.
pub(crate) fn shape(alloc: Global, key: &str) -> LatFault
    ensures { IsFaultOf (Some (Shape key.now)) result }
{
    match key.as_bytes().to_vec(alloc) {
        Ok(bytes) => LatFault::Shape(Bytes::from_vec(bytes)),
        Err(_) => LatFault::Memory,
    }
}

// Whether the string may be added to the names.
fn may_follow(names: &Names, string: &[u8]) -> bool
    ensures { IsTrue result ↔ (IsName string.now × (Contains names.now string.now → ⊥)) }
{
    is_name(string) && names.find(string).is_none()
}

// The names that the strings are, where they are spelled as such and distinct.
pub(crate) fn names_of(alloc: Global, strings: &[Bytes]) -> Result<Names, LatFault>
    ensures names { IfOk result (λ names. names ≡ strings.now) }
    ensures none { OnOk result (names_fault (Some strings.now) ≡ None) }
    ensures fault { IfErr result (IsFaultOf (names_fault (Some strings.now))) }
{
    if strings.len() > 256 {
        return Err(LatFault::TooMany);
    }
    let mut names = Names::new(alloc);
    for string in strings {
        let name = string.items();
        if !may_follow(&names, name) {
            return Err(shape(alloc, "names"));
        }
        names.push(name)?;
    }
    Ok(names)
}
