// The line that a signature begins with.
ghost use Rattle.std.specs.Prelude.{MatchResult};
ghost use Rattle.rt_sigs.specs.Inside.Readings.{IsHeading, IsHeadingFault};

use crate::fault::SigFault;
use crate::line::{after_front, first_line};
use crate::sigs::Sigs;
use rt_base::Bytes;
use rt_scheme::read_name;
use rt_texts::TextFault;
use std::alloc::Global;

// A signature's name, and the text after its line.
#[derive(Drop)]
pub struct Heading<'a> {
    pub name: Bytes,
    pub rest: &'a [u8],
}

// Reads the first line of a text, that of this number, as the first one of a signature with a new name.
pub fn read_heading<'a>(
    alloc: Global,
    text: &'a [u8],
    sigs: &Sigs,
    number: u32,
) -> Result<Heading<'a>, SigFault>
    ensures { MatchResult result (λ heading. IsHeading sigs.now text.now heading.name heading.rest.now)
        (IsHeadingFault sigs.now text.now number) }
{
    let Some((line, rest)) = first_line(text) else {
        return Err(SigFault::BadLine(number));
    };
    let Some(escaped) = after_front(line, b"sig ") else {
        return Err(SigFault::BadLine(number));
    };
    let name = match read_name(alloc, escaped) {
        Ok(name) => name,
        Err(TextFault::BadText(_)) => return Err(SigFault::BadLine(number)),
        Err(TextFault::Memory) => return Err(SigFault::Memory),
    };
    match sigs.find(name.items()) {
        Some(_) => Err(SigFault::Twice(number)),
        None => Ok(Heading { name, rest }),
    }
}
