// Versions of the grammar of signature files.
ghost use Rattle.std.specs.Prelude.{◌+◌, ◌<◌, ◌^◌, length};
ghost use Rattle.rt_sigs.specs.Inside.Readings.{IsBegun};

use crate::line::after_front;

// A version of the grammar.
#[derive(Clone, Copy, Debug, PartialEq, Eq)]
pub enum Version {
    // Signatures have a scheme alone.
    First,
    // The file begins with a line that says so, and signatures may say whether the function returns and how many registers
    // it takes.
    Second,
}

// A text's version, the text after its line, and the number of the first line of that text.
#[derive(Clone, Copy)]
pub struct Begun<'a> {
    pub version: Version,
    pub rest: &'a [u8],
    pub number: u32,
}

// Reads the line that a text of the second version begins with.
pub fn read_version(text: &[u8]) -> Begun<'_>
    ensures { IsBegun text.now result.version result.rest.now result.number }
{
    match after_front(text, b"version 2\n") {
        Some(rest) => Begun {
            version: Version::Second,
            rest,
            number: 2,
        },
        None => Begun {
            version: Version::First,
            rest: text,
            number: 1,
        },
    }
}
