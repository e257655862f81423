// The order of a file's names.
ghost use Rattle.std.specs.Prelude.{◌≡◌, ◌<◌, [], ◌∷◌, None, IfOk, OnOk, IfErr, length};
ghost use Rattle.rt_lines.specs.Names.{AreNames, HasName};
ghost use Rattle.rt_lattice.specs.Closures.{Closes, AddsPair, IsUnknownIn, first_unknown, unknown_name, names_in};

use crate::fault::LatFault;
use crate::file::{File, Pair};
use rt_base::Bytes;
use rt_lines::{Names, Order};
use std::alloc::{AllocError, Global};

// The number of a name.
fn number_of(names: &Names, name: &Bytes) -> Result<u16, LatFault>
    ensures found { IfOk result (λ number. HasName names.now number name.now) }
    ensures known { OnOk result (first_unknown names.now (name.now ∷ []) ≡ None) }
    ensures fault { IfErr result (IsUnknownIn names.now (name.now ∷ [])) }
{
    match names.find(name.items()) {
        Some(number) => Ok(number),
        None => Err(LatFault::Unknown(name.copy()?)),
    }
}

// Puts the first name of a pair below the second.
fn add_pair(names: &Names, pair: &Pair, order: &mut Order) -> Result<(), LatFault>
    requires { order.old.count ≡ length names.now }
    ensures ok { OnOk result (AddsPair names.now pair.now order.old order.new) }
    ensures known { OnOk result (first_unknown names.now (names_in (pair.now ∷ [])) ≡ None) }
    ensures fault { IfErr result (IsUnknownIn names.now (names_in (pair.now ∷ []))) }
{
    let lower = number_of(names, &pair.lower)?;
    let upper = number_of(names, &pair.upper)?;
    order.add(lower, upper);
    Ok(())
}

// The reflexive and transitive closure of a file's pairs.
pub(crate) fn order_of(alloc: Global, file: &File) -> Result<Order, LatFault>
    ensures ok { IfOk result (Closes file.now.names file.now.below) }
    ensures named { AreNames file.now.names }
    ensures known { OnOk result (unknown_name file.now ≡ None) }
    ensures fault { IfErr result (IsUnknownIn file.now.names (names_in file.now.below)) }
{
    let mut order = Order::flat(alloc, file.names.items().len() as u16)?;
    for pair in file.below.items() {
        add_pair(&file.names, pair, &mut order)?;
    }
    Ok(order)
}

// A copy of the name of a number.
pub(crate) fn name_of(names: &Names, number: u16) -> Result<Bytes, AllocError>
    requires { number < length names.now }
    ensures { IfOk result (HasName names.now number) }
{
    names.items()[usize::from(number)].copy()
}
