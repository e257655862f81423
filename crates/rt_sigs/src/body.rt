// The lines of a signature after what it says of its function.
ghost use Rattle.std.specs.Prelude.{◌+◌, ◌<◌, ◌^◌, MatchResult, length};
ghost use Rattle.rt_sigs.specs.Inside.Readings.{IsBody, IsBodyFault};

use crate::fault::SigFault;
use crate::line::{first_line, read_signature_line};
use rt_lines::Names;
use rt_scheme::Scheme;
use std::alloc::Global;

// A signature's scheme, the text after its end, and the number of the first line of that text.
#[derive(Drop)]
pub struct Body<'a> {
    pub scheme: Scheme,
    pub rest: &'a [u8],
    pub number: u32,
}

// Reads the lines of a signature, which says so much of the arguments, and its end. The first of them has the number.
pub fn read_body<'a>(
    alloc: Global,
    text: &'a [u8],
    names: &Names,
    args: Option<u8>,
    first: u32,
) -> Result<Body<'a>, SigFault>
    requires { first + length text.now < 2 ^ 32 }
    ensures { MatchResult result (IsBody names.now args text.now first) (IsBodyFault names.now args text.now first) }
{
    let mut scheme = Scheme::empty(alloc, 0);
    let mut rest = text;
    let mut number = first;
    while let Some((line, more)) = first_line(rest) {
        if line == b"end".as_slice() {
            return Ok(Body {
                scheme,
                rest: more,
                number: number + 1,
            });
        }
        let line = match read_signature_line(alloc, line, names, args, number) {
            Ok(line) => line,
            Err(fault) => return Err(fault),
        };
        match scheme.push(line) {
            Ok(()) => (),
            Err(_) => return Err(SigFault::Memory),
        }
        rest = more;
        number += 1;
    }
    Err(SigFault::BadLine(number))
}
