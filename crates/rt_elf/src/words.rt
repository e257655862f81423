// The words of a section.
ghost use Rattle.std.specs.Prelude.{◌≡◌, ◌+◌, ◌<◌, ◌≤◌, IfOk, length};
ghost use Rattle.rt_elf.specs.Object.{section_of, section_words};

use crate::field::word_at;
use crate::object::Object;
use std::alloc::{AllocError, Global};

impl Object {
    /// The little endian words of a section, in order: those at the offsets 0, 4, 8 and so on that lie wholly inside it.
    ///
    /// Condition: there is such a section, and it lies in the object's bytes.
    pub fn words(&self, alloc: Global, section: u16) -> Result<Vec<u32>, AllocError>
        requires there { section < length self.now.sections }
        requires in_file { (section_of self.now section).offset + (section_of self.now section).size ≤ length self.now.bytes }
        ensures { IfOk result (λ words. words.items ≡ section_words self.now section) }
    {
        let section = &self.sections()[section as usize];
        let bytes = self.bytes();
        let count = section.size as usize / 4;
        let mut words = Vec::with_capacity(alloc, count)?;
        for k in 0..count {
            words.push(word_at(bytes, section.offset as usize + 4 * k))?;
        }
        Ok(words)
    }
}
