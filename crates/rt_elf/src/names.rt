// Names in string tables (ELF gABI, "String Table").
ghost use Rattle.std.specs.Prelude.{◌≡◌, ◌+◌, ◌<◌, ◌≤◌, ◌^◌, IfOk, length};
ghost use Rattle.rt_elf.specs.Names.{name_at, EndsAt, AreEnds};

use crate::name::Name;
use rt_base::Bytes;
use std::alloc::{AllocError, Global};
use std::marker::Model;
use std::rc::Rc;

// The place after the last zero byte, or 0: the names that begin before it have an end.
pub(crate) fn end_of_names(strings: &[u8]) -> usize
    ensures ends { EndsAt strings.now result }
    ensures within { result ≤ length strings.now }
{
    let mut end = 0;
    for (i, byte) in strings.iter().enumerate() {
        if *byte == 0 {
            end = i + 1;
        }
    }
    end
}

// For each offset of a string table, and for its end, the place of the first zero byte from there on, or the end.
fn ends_of(alloc: Global, strings: &[u8]) -> Result<Vec<u32>, AllocError>
    requires { length strings.now < 2 ^ 32 }
    ensures { IfOk result (λ ends. AreEnds strings.now ends.items) }
{
    let end = strings.len();
    let mut ends = vec![in alloc; end as u32; end + 1]?;
    for k in (0..end).rev() {
        ends[k] = if strings[k] == 0 {
            k as u32
        } else {
            ends[k + 1]
        };
    }
    Ok(ends)
}

// A string table, with the place where the name from each offset on ends. Contracts see it as its bytes.
#[derive(Drop)]
pub(crate) struct Strings {
    block: Rc<Bytes>,
    ends: Vec<u32>,
}

impl Model for Strings {
    ghost use Rattle.std.specs.Prelude.{ℕ, List};
    ghost use Rattle.rt_elf.specs.Names.{AreEnds};

    ghost Value = { List ℕ };

    ghost view = { λ strings. strings.block.value };

    ghost invariant = { λ strings. AreEnds strings.block.value strings.ends.items };
}

impl Strings {
    pub(crate) fn new(alloc: Global, strings: &[u8]) -> Result<Strings, AllocError>
        requires { length strings.now < 2 ^ 32 }
        ensures { IfOk result (λ made. made ≡ strings.now) }
    {
        let ends = ends_of(alloc, strings)?;
        let block = Rc::new(alloc, Bytes::from_vec(strings.to_vec(alloc)?))?;
        Ok(Strings { block, ends })
    }

    // The name at an offset.
    pub(crate) fn name_at(&self, offset: usize) -> Result<Name, AllocError>
        requires { offset ≤ length self.now }
        ensures { IfOk result (λ name. name ≡ name_at self.now offset) }
    {
        if offset == 0 {
            return Name::in_block(&self.block, 0, 0);
        }
        let end = self.ends[offset] as usize;
        Name::in_block(&self.block, offset, end)
    }
}
