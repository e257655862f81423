// Reading of names.
ghost use Rattle.std.specs.Prelude.{◌≡◌, ◌<◌, [], ◌∷◌, IfOk, MatchOption, length};
ghost use Rattle.rt_texts.specs.Readings.{ReadsOrFails};
ghost use Rattle.rt_scheme.specs.NameTexts.{name_text};
ghost use Rattle.rt_scheme.specs.NameReadings.{AreBytes, digit_value, meant, unescaped};

use crate::name::print_name;
use rt_base::{Bytes, Memory};
use rt_texts::TextFault;
use std::alloc::Global;

/// The name that has the text. Where no name has it, as where a visible byte is written by its digits, the fault is
/// `BadText(0)`.
pub fn read_name(alloc: Global, text: &[u8]) -> Result<Bytes, TextFault>
    ensures { ReadsOrFails AreBytes name_text text.now result }
{
    let name = match meaning(alloc, text) {
        Ok(name) => name,
        Err(_) => return Err(TextFault::Memory),
    };
    let mut printed = Vec::new(alloc);
    match print_name(&name, &mut printed) {
        Ok(()) => (),
        Err(_) => return Err(TextFault::Memory),
    }
    if printed.as_slice() == text {
        Ok(Bytes::from_vec(name))
    } else {
        Err(TextFault::BadText(0))
    }
}

// The bytes that a text stands for, if it is that of a name.
fn meaning(alloc: Global, text: &[u8]) -> Result<Vec<u8>, Memory>
    ensures value { IfOk result (λ name. name.items ≡ meant text.now) }
    ensures bytes { IfOk result (λ name. AreBytes name.items) }
{
    match text {
        b"-" => Ok(Vec::new(alloc)),
        _ => unescape(alloc, text),
    }
}

// The bytes of a text, with one in place of each backslash and its digits.
fn unescape(alloc: Global, text: &[u8]) -> Result<Vec<u8>, Memory>
    ensures value { IfOk result (λ bytes. bytes.items ≡ unescaped text.now) }
    ensures bytes { IfOk result (λ bytes. AreBytes bytes.items) }
{
    let mut bytes = Vec::with_capacity(alloc, text.len())?;
    let mut rest = text;
    while let Some((byte, more)) = next_byte(rest) {
        bytes.push(byte)?;
        rest = more;
    }
    Ok(bytes)
}

// A text's first byte, which it may write by its digits, and the text after it.
fn next_byte(text: &[u8]) -> Option<(u8, &[u8])>
    ensures { MatchOption result (text.now ≡ [])
        (λ p. (unescaped text.now ≡ p.0 ∷ unescaped p.1.now) × (length p.1.now < length text.now)) }
{
    match text {
        [] => None,
        [b'\\', high, low, more @ ..] => {
            let byte = 16 * digit_value(*high) + digit_value(*low);
            Some((byte, more))
        }
        [byte, more @ ..] => Some((*byte, more)),
    }
}

// The value of a digit, 0 where it is none.
fn digit_value(digit: u8) -> u8
    ensures value { result ≡ digit_value digit }
    ensures small { result < 16 }
{
    match digit {
        b'0'..=b'9' => digit - b'0',
        b'a'..=b'f' => digit - b'a' + 10,
        _ => 0,
    }
}
