// Parts of texts.
ghost use Rattle.std.specs.Prelude.{◌≡◌, ◌≢◌, ◌<◌, ◌^◌, ◌++◌, List, ℕ, MatchOption, decimal, FitsSigned};
ghost use Rattle.std.specs.Fmt.{signed_decimal};
ghost use Rattle.std.specs.Int.{w32};
ghost use Rattle.rt_texts.specs.Goods.{IsNumber};
ghost use Rattle.rt_texts.specs.Readings.{Reads, IsCut};

use itoa::Buffer;
use std::str;

/// The text before the first place of the byte, and the text from there on, which is empty where the byte
/// is not there.
pub fn split_before(text: &[u8], byte: u8) -> (&[u8], &[u8])
    ensures { IsCut byte text.now result.0.now result.1.now }
{
    for (k, here) in text.iter().enumerate() {
        if *here == byte {
            return (&text[..k], &text[k..]);
        }
    }
    (text, b"")
}

/// What follows the prefix of a text; none where the text does not begin with it.
pub fn after_front<'a>(text: &'a [u8], front: &[u8]) -> Option<&'a [u8]>
    ensures { MatchOption result ((rest : List ℕ) → text.now ≢ front.now ++ rest) (λ rest. text.now ≡ front.now ++ rest.now) }
{
    text.strip_prefix(front)
}

/// Reads a number below 2^32 in decimal, without leading zeros; none where the text is no such number's.
pub fn read_number(text: &[u8]) -> Option<u32>
    ensures { Reads IsNumber decimal text.now result }
{
    let Ok(digits) = str::from_utf8(text) else {
        return None;
    };
    let Ok(n) = digits.parse::<u32>() else {
        return None;
    };
    let mut buffer = Buffer::new();
    if buffer.format(n).as_bytes() == text {
        Some(n)
    } else {
        None
    }
}

// Reads a signed number in decimal.
pub fn read_signed(text: &[u8]) -> Option<i32>
    ensures { Reads (FitsSigned w32) signed_decimal text.now result }
{
    let Ok(digits) = str::from_utf8(text) else {
        return None;
    };
    let Ok(n) = digits.parse::<i32>() else {
        return None;
    };
    let mut buffer = Buffer::new();
    if buffer.format(n).as_bytes() == text {
        Some(n)
    } else {
        None
    }
}

// Reads a number after a front.
pub fn read_numbered(text: &[u8], front: &[u8]) -> Option<u32>
    ensures { Reads IsNumber (λ n. front.now ++ decimal n) text.now result }
{
    match after_front(text, front) {
        None => None,
        Some(rest) => read_number(rest),
    }
}

// Reads a signed number after a front.
pub fn read_signed_after(text: &[u8], front: &[u8]) -> Option<i32>
    ensures { Reads (FitsSigned w32) (λ n. front.now ++ signed_decimal n) text.now result }
{
    match after_front(text, front) {
        None => None,
        Some(rest) => read_signed(rest),
    }
}
