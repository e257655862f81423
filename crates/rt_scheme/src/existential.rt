// Variables of existentials.
ghost use Rattle.std.specs.Prelude.{◌≡◌, All, IfOk};
ghost use Rattle.rt_lines.specs.Words.{IsLabel};

use rt_base::Memory;
use rt_lines::{Base, Dtv, Label, Word};
use std::alloc::Global;

// The variable of an existential and these letters.
pub fn existential(alloc: Global, number: u32, letters: &[Label]) -> Result<Dtv, Memory>
    requires { All IsLabel letters.now }
    ensures { IfOk result (λ x. x ≡ record { base = Base.Exist number; word = letters.now }) }
{
    let word = Word::from_slice(alloc, letters)?;
    Ok(Dtv {
        base: Base::Exist(number),
        word,
    })
}
