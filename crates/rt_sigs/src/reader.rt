// Reading of signature files.
ghost use Rattle.std.specs.Prelude.{◌≤◌, IfErr, IfOk, MatchResult, length};
ghost use Rattle.rt_sigs.specs.SignatureTexts.{IsFileOf};
ghost use Rattle.rt_sigs.specs.Faults.{IsFault, most_bytes};

use crate::body::read_body;
use crate::fault::SigFault;
use crate::heading::read_heading;
use crate::prototype::Prototype;
use crate::remarks::read_remarks;
use crate::sigs::Sigs;
use crate::version::read_version;
use rt_lines::Names;
use std::alloc::Global;

const MOST_BYTES: usize = 1_048_576;

/// The signatures of a file, whose constants are of the names. A file is a list of signatures, in the second version of the
/// grammar with a line `version 2` before them. A signature is a line `sig NAME`, lines, and a line `end`; in its lines the
/// function is `f0`, followed first by the label of an argument or a result, and each other base is an existential. In the
/// second version a line `noreturn`, and then a line `args N` with N from 0 to 8, may stand before the lines, which then name
/// no argument register past the first N, and no word of the stack where N isn't 8. Where it is no such file the error says
/// its first faulty line.
pub fn read(alloc: Global, text: &[u8], names: &Names) -> Result<Sigs, SigFault>
    ensures read { IfOk result (IsFileOf names.now text.now) }
    ensures small { IfOk result (λ sigs. length text.now ≤ most_bytes) }
    ensures refused { IfErr result (IsFault names.now text.now) }
{
    if text.len() > MOST_BYTES {
        return Err(SigFault::TooLarge);
    }
    read_signatures(alloc, text, names)
}

// Reads a file that is not too large.
fn read_signatures(alloc: Global, text: &[u8], names: &Names) -> Result<Sigs, SigFault>
    requires { length text.now ≤ most_bytes }
    ensures { MatchResult result (IsFileOf names.now text.now) (IsFault names.now text.now) }
{
    let mut sigs = Sigs::empty(alloc);
    let begun = read_version(text);
    let version = begun.version;
    let mut rest = begun.rest;
    let mut number = begun.number;
    while !rest.is_empty() {
        let heading = match read_heading(alloc, rest, &sigs, number) {
            Ok(heading) => heading,
            Err(fault) => return Err(fault),
        };
        let remarks = read_remarks(heading.rest, version, number + 1);
        let body = match read_body(alloc, remarks.rest, names, remarks.args, remarks.number) {
            Ok(body) => body,
            Err(fault) => return Err(fault),
        };
        let prototype = Prototype {
            scheme: body.scheme,
            returns: remarks.returns,
            args: remarks.args,
        };
        match sigs.push(heading.name.into_vec(), prototype) {
            Ok(()) => (),
            Err(_) => return Err(SigFault::Memory),
        }
        rest = body.rest;
        number = body.number;
    }
    Ok(sigs)
}
