// Which symbols end paths.
ghost use Rattle.std.specs.Prelude.{◌≡◌, ◌<◌, AllPairs, IfOk};
ghost use Rattle.rt_liveness.specs.Ends.{is_end, ends_of};

use rt_base::{Memory, Sequence};
use rt_elf::section_index::UNDEFINED;
use rt_elf::{Object, Symbol};
use rt_sigs::Sigs;
use std::alloc::Global;

/// Numbers, of symbols say.
pub type Numbers = Sequence<u32>;

// Whether a symbol is undefined, and its signature says that its function doesn't return.
fn is_end(sigs: &Sigs, symbol: &Symbol) -> bool
    ensures { result ≡ is_end sigs.now symbol.now }
{
    symbol.section == UNDEFINED && !sigs.returns(symbol.name.items())
}

/// The undefined symbols of an object whose signatures say that their functions don't return, ascending: calls of these
/// have no continuation. The error is out of memory.
pub fn ends(alloc: Global, object: &Object, sigs: &Sigs) -> Result<Numbers, Memory>
    ensures ends { IfOk result (λ ends. ends ≡ ends_of object.now sigs.now) }
    ensures ascending { IfOk result (AllPairs ◌<◌) }
{
    let mut ends = Sequence::new(alloc);
    for (number, symbol) in object.symbols().iter().enumerate() {
        if is_end(sigs, symbol) {
            ends.push(number as u32)?;
        }
    }
    Ok(ends)
}
