// Letters that are exchanged, and digits.
ghost use Rattle.std.specs.Prelude.{◌≡◌, ◌<◌, length, IfOk, slice_index_or, slice_set};
ghost use Rattle.rt_lines.specs.declared.label.Label.TheVariants.{Load};
ghost use Rattle.rt_bridge.specs.Counted.{bit as bit_of};
ghost use Rattle.rt_chain.specs.Inside.Letters.{other};

use rt_base::Memory;
use rt_lines::{Label, Variance, Word};
use std::alloc::Global;

// 1 where the order is kept.
pub(crate) fn bit(sign: Variance) -> u128
    ensures { result ≡ bit_of sign }
{
    match sign {
        Variance::Co => 1,
        Variance::Contra => 0,
    }
}

// The load for a store, the store for a load; other labels stay.
fn other_of(label: Label) -> Label
    ensures { result ≡ other label }
{
    match label {
        Label::Load => Label::Store,
        Label::Store => Label::Load,
        _ => label,
    }
}

// The word with load and store exchanged at a place.
pub(crate) fn exchanged(alloc: Global, word: &Word, place: usize) -> Result<Word, Memory>
    requires { place < length word.now }
    ensures { IfOk result (λ w. w ≡ slice_set word.now place (other (slice_index_or word.now place Load))) }
{
    let letters = word.items();
    let mut spelling = Word::empty(alloc);
    for i in 0..letters.len() {
        let letter = if i == place {
            other_of(letters[i])
        } else {
            letters[i]
        };
        spelling.push(letter)?;
    }
    Ok(spelling)
}
