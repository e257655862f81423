// Writing in pieces.
ghost use Rattle.std.specs.Prelude.{◌≤◌, OnOk, OnErr};
ghost use Rattle.rt_base.specs.Outside.{Rose};
ghost use Rattle.rt_io.specs.Puts.{PutsFront, PutsLine, PutsText};

use crate::sink::{Sink, SinkFault};

// How many bytes go out in one put. Only a text's last piece is shorter.
const PIECE: usize = 4096;

/// Puts a text in pieces of 4,096 bytes, the last of which may be shorter, and an empty text in none. Where a put fails, no
/// more follow, and a prefix of the text is there.
pub fn put_all<O: Sink>(out: &mut O, text: &[u8]) -> Result<(), SinkFault>
    ensures counted { O.faults out.old ≤ O.faults out.new }
    ensures text { OnOk result (PutsText O.written O.takes out.old out.new text.now) }
    ensures failed { OnErr result (Rose (O.faults out.old) (O.faults out.new)) }
    ensures front { OnErr result (PutsFront O.written O.takes O.refuses out.old out.new text.now) }
{
    let mut at = 0;
    while at < text.len() {
        let end = text.len().min(at + PIECE);
        match out.put(&text[at..end]) {
            Ok(()) => at = end,
            Err(fault) => return Err(fault),
        }
    }
    Ok(())
}

/// Puts a line whole, in one put. Where that fails, nothing else happens.
pub fn put_line<E: Sink>(err: &mut E, line: &[u8])
    ensures { PutsLine E.written E.faults E.takes E.refuses err.old err.new line.now }
{
    let _ = err.put(line);
}
