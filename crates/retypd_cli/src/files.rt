// The files of the system.
ghost use Rattle.std.specs.Prelude.{◌≤◌, ◌+◌, IfOk, None, vec_len};

use rt_io::{FileFault, Files};
use std::alloc::{AllocError, Global};
use std::io::{self, ErrorKind, Read};
use std::{fs, rt};

// How many bytes one read asks for at most.
const PIECE: usize = 65_536;

/// The files of the system. What they hold is not said; each read that fails is counted, whatever its name.
#[derive(Drop)]
pub struct HostFiles<'a, R: rt::Files> {
    system: &'a R,
    faults: u64,
}

impl<'a, R: rt::Files> HostFiles<'a, R> {
    /// The files of a system, none of which was read.
    pub fn new(system: &'a R) -> Self {
        HostFiles { system, faults: 0 }
    }
}

// The piece that reads fill.
fn new_piece(alloc: Global) -> Result<Vec<u8>, AllocError> {
    vec![in alloc; 0u8; PIECE]
}

// Adds what a reader gives, until it gives nothing or `limit` bytes are there.
fn read_up_to<F: Read>(
    file: &mut F,
    piece: &mut [u8],
    bytes: &mut Vec<u8>,
    limit: usize,
) -> io::Result<()>
    requires { vec_len bytes.old ≤ limit }
    ensures { vec_len bytes.new ≤ limit }
{
    for _ in 0..u64::MAX {
        let want = (limit - bytes.len()).min(piece.len());
        if want == 0 {
            break;
        }
        match file.read(&mut piece[..want]) {
            Ok(0) => break,
            Ok(count) => bytes.extend_from_slice(&piece[..count])?,
            Err(error) => {
                if error.kind() != ErrorKind::Interrupted {
                    return Err(error);
                }
            }
        }
    }
    Ok(())
}

// The content of a file, as far as `limit` bytes.
fn read_front<R: rt::Files>(
    system: &R,
    alloc: Global,
    name: &str,
    limit: usize,
) -> io::Result<Vec<u8>>
    ensures { IfOk result (λ bytes. vec_len bytes ≤ limit) }
{
    let mut file = fs::open(system, name)?;
    let mut piece = new_piece(alloc)?;
    let mut bytes = Vec::new(alloc);
    read_up_to(&mut file, piece.as_mut_slice(), &mut bytes, limit)?;
    Ok(bytes)
}

impl<'a, R: rt::Files> Files for HostFiles<'a, R> {
    ghost content = { λ files name. None };

    ghost faults = { λ files name. files.faults };

    fn read(&mut self, alloc: Global, name: &str, limit: u64) -> Result<Vec<u8>, FileFault> {
        let most = limit.saturating_add(1) as usize;
        match read_front(self.system, alloc, name, most) {
            Ok(bytes) => {
                if bytes.len() as u64 > limit {
                    Err(FileFault::Longer)
                } else {
                    Ok(bytes)
                }
            }
            Err(error) => {
                if error.kind() == ErrorKind::OutOfMemory {
                    Err(FileFault::Memory)
                } else {
                    self.faults = self.faults.saturating_add(1);
                    Err(FileFault::Failed)
                }
            }
        }
    }
}
