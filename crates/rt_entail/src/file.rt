// Texts of lines.
ghost use Rattle.std.specs.Prelude.{◌<◌, ◌^◌, length};
ghost use Rattle.rt_entail.specs.Files.{ReadsFile};

use rt_lines::{Lines, Names};
use rt_texts::{TextFault, read_line, split_before};
use std::alloc::Global;

/// The lines of a text, each of which has a line end, and whose constants are of the names. Where one is bad the fault is
/// `BadText` of the place at which the first bad one begins, in bytes from the text's start.
pub fn read_file(alloc: Global, text: &[u8], names: &Names) -> Result<Lines, TextFault>
    requires { length text.now < 2 ^ 32 }
    ensures { ReadsFile names.now text.now result }
{
    let mut lines = Lines::new(alloc);
    let mut rest = text;
    while !rest.is_empty() {
        let place = (text.len() - rest.len()) as u32;
        let (front, back) = split_before(rest, b'\n');
        if back.is_empty() {
            return Err(TextFault::BadText(place));
        }
        let line = match read_line(alloc, front, names) {
            Ok(line) => line,
            Err(TextFault::BadText(_)) => return Err(TextFault::BadText(place)),
            Err(TextFault::Memory) => return Err(TextFault::Memory),
        };
        match lines.push(line) {
            Ok(()) => rest = &back[1..],
            Err(_) => return Err(TextFault::Memory),
        }
    }
    Ok(lines)
}
