// Readers of words and of variables.
ghost use Rattle.std.specs.Prelude.{◌≡◌, ◌<◌};
ghost use Rattle.rt_lines.specs.Words.{IsLabel};
ghost use Rattle.rt_texts.specs.Goods.{IsBase, IsWord, IsDtv};
ghost use Rattle.rt_texts.specs.Readings.{Reads, ReadsOrFails};
ghost use Rattle.rt_texts.specs.Texts.{base_text, word_text, dtv_text};

use crate::cut::{after_front, read_numbered, split_before};
use crate::fault::TextFault;
use crate::label::read_label;
use rt_lines::{Base, Dtv, Word};
use std::alloc::Global;

// Reads a base.
fn read_base(text: &[u8]) -> Option<Base>
    ensures { Reads IsBase base_text text.now result }
{
    if let Some(n) = read_numbered(text, b"f") {
        return Some(Base::Proc(n));
    }
    if let Some(n) = read_numbered(text, b"g") {
        return Some(Base::Global(n));
    }
    if let Some(n) = read_numbered(text, b"t") {
        return Some(Base::Exist(n));
    }
    if let Some(n) = read_numbered(text, b"x") {
        return Some(Base::Outer(n));
    }
    None
}

// Reads a word.
fn read_word(alloc: Global, text: &[u8]) -> Result<Word, TextFault>
    ensures { ReadsOrFails IsWord word_text text.now result }
{
    let mut word = Word::empty(alloc);
    let mut rest = text;
    while let Some(after) = after_front(rest, b".") {
        let (front, back) = split_before(after, b'.');
        let Some(label) = read_label(front) else {
            return Err(TextFault::BadText(0));
        };
        let Ok(()) = word.push(label) else {
            return Err(TextFault::Memory);
        };
        rest = back;
    }
    if rest.is_empty() {
        Ok(word)
    } else {
        Err(TextFault::BadText(0))
    }
}

// Reads a variable.
pub fn read_variable(alloc: Global, text: &[u8]) -> Result<Dtv, TextFault>
    ensures { ReadsOrFails IsDtv dtv_text text.now result }
{
    let (front, back) = split_before(text, b'.');
    let Some(base) = read_base(front) else {
        return Err(TextFault::BadText(0));
    };
    match read_word(alloc, back) {
        Ok(word) => Ok(Dtv { base, word }),
        Err(fault) => Err(fault),
    }
}
