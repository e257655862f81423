// Lattices from texts.
ghost use Rattle.std.specs.Prelude.{◌≡◌, ◌≢◌, ◌⊎◌, IfOk, IfErr, Err};
ghost use Rattle.toml.specs.View.{table_view};
ghost use Rattle.rt_lattice.specs.declared.fault.LatFault.{LatFault};
ghost use Rattle.rt_lattice.specs.declared.fault.LatFault.TheVariants.{Memory};
ghost use Rattle.rt_lattice.specs.Files.{IsTable};
ghost use Rattle.rt_lattice.specs.Faults.{IsFirstFault, IsLatticeIn};
ghost use Rattle.rt_lattice.specs.Lattices.{IsLatticeOf};
ghost use Rattle.rt_lattice.specs.Standard.{standard_file};

use crate::document::file_of;
use crate::fault::LatFault;
use crate::lattice::{Lattice, lattice_of};
use std::alloc::{AllocError, Global};
use toml::Table;

// The table of a text.
fn table_of(alloc: Global, text: &[u8]) -> Result<Table, LatFault>
    ensures table { IfOk result (λ table. IsTable text.now (table_view table)) }
    ensures fault { IfErr result (λ fault. fault ≢ Memory → IsFirstFault text.now fault) }
{
    if text.len() > 65536 {
        return Err(LatFault::TooMany);
    }
    match toml::table_from_slice(alloc, text) {
        Ok(table) => Ok(table),
        Err(error) => {
            if error.is_memory() {
                Err(LatFault::Memory)
            } else {
                Err(LatFault::NotToml)
            }
        }
    }
}

/// The lattice that a file says. A fault is the first one of the text, in the order of [`LatFault`]; out of memory may
/// come in its place.
///
/// There are at most 256 names. Time is at most cubic in their number, and for each pair of `below` at most square.
pub fn read(alloc: Global, text: &[u8]) -> Result<Lattice, LatFault>
    ensures lattice { IfOk result (IsLatticeIn text.now) }
    ensures fault { IfErr result (λ fault. fault ≢ Memory → IsFirstFault text.now fault) }
    ensures exact { (fault : LatFault) → IsFirstFault text.now fault → (result ≡ Err fault) ⊎ (result ≡ Err Memory) }
{
    let table = table_of(alloc, text)?;
    let file = file_of(alloc, &table)?;
    lattice_of(alloc, file)
}

// The file of the standard lattice.
const STANDARD: &str = r#"names = [
    "any", "num32", "int32", "int16", "int8", "uint32", "uint16", "uint8",
    "bool", "code", "str", "none",
]
below = [
    ["num32", "any"], ["int32", "num32"], ["int16", "int32"], ["int8", "int16"],
    ["bool", "int8"], ["uint32", "num32"], ["uint16", "uint32"], ["uint8", "uint16"],
    ["bool", "uint8"], ["code", "any"], ["str", "any"], ["none", "bool"],
    ["none", "code"], ["none", "str"],
]
[roles]
num32 = "num32"
sint32 = "int32"
uint32 = "uint32"
sint16 = "int16"
uint16 = "uint16"
sint8 = "int8"
uint8 = "uint8"
bool = "bool"
code = "code"
"#;

/// The lattice that is used where no file is given: the numbers of C, with 8, 16 and 32 bits and with and without a sign,
/// and the addresses of code and of strings.
pub fn standard(alloc: Global) -> Result<Lattice, AllocError>
    ensures { IfOk result (IsLatticeOf standard_file) }
{
    match read(alloc, STANDARD.as_bytes()) {
        Ok(lattice) => Ok(lattice),
        Err(fault) => {
            // The file has no fault.
            prove!(matches!(&fault, LatFault::Memory));
            Err(AllocError)
        }
    }
}
