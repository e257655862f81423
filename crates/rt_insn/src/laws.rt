//! What follows from the code table: it is one to one between the words that are instructions and the instructions
//! whose fields are in range.
ghost use Rattle.std.specs.Prelude.{◌≡◌, ℕ};
ghost use Rattle.rt_insn.specs.Table.{IsCode};
ghost use Rattle.rt_insn.specs.Range.{HasRange};
ghost use Rattle.rt_insn.specs.declared.insn.Insn.{Insn};

use crate::decoder::decode;
use crate::encoder::encode;
use crate::insn::Insn;

/// A word is the code of one instruction at most.
pub fn one_code()
    ensures { (word : ℕ) (i j : Insn) → IsCode word i → IsCode word j → i ≡ j }
{}

/// An instruction has one word at most.
pub fn one_word()
    ensures { (v w : ℕ) (insn : Insn) → IsCode v insn → IsCode w insn → v ≡ w }
{}

/// An instruction that has a word is one that [`encode`] takes.
pub fn code_in_range()
    ensures { (word : ℕ) (insn : Insn) → IsCode word insn → HasRange insn }
{}

/// Decoding what [`encode`] writes gives the instruction back.
pub fn round_trip(insn: &Insn) -> Option<Insn>
    requires { HasRange insn.now }
    ensures { result ≡ Some insn.now }
{
    decode(encode(insn))
}
