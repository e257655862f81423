// The words at places, and what they say.
ghost use Rattle.std.specs.Prelude.{◌≡◌, IsTrue, Option};
ghost use Rattle.rt_insn.specs.declared.insn.Insn.{Insn};
ghost use Rattle.rt_control.specs.Places.{is_good, word_of};
ghost use Rattle.rt_control.specs.Sites.{register_of, IsInsnOf};

use rt_elf::Object;
use rt_insn::{Insn, decode};
use rt_link::Place;

// The word at a good place.
pub(crate) fn word_of(object: &Object, place: Place) -> u32
    requires { IsTrue (is_good object.now place) }
    ensures { result ≡ word_of object.now place }
{
    object.word(place.section, place.offset).unwrap()
}

// The instruction at a good place, if its word is one.
pub(crate) fn insn_at(object: &Object, place: Place) -> Option<Insn>
    requires { IsTrue (is_good object.now place) }
    ensures found { IsInsnOf (word_of object.now place) result }
    ensures only { (other : Option Insn) → IsInsnOf (word_of object.now place) other → other ≡ result }
{
    decode(word_of(object, place))
}

// rd of a word: the register that it writes.
pub(crate) fn register_of(word: u32) -> u8
    ensures { result ≡ register_of word }
{
    ((word >> 7) & 0x1F) as u8
}
