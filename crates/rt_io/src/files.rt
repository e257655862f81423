// Files by name.
ghost use Rattle.std.specs.Prelude.{◌≡◌, ◌≤◌, ◌<◌, List, ℕ, Option, length, IfOk, IfSome, IsErrOf};
ghost use Rattle.rt_base.specs.Outside.{Rose};

use std::alloc::Global;

/// Why a file was not read.
#[derive(Clone, Copy, Debug, PartialEq, Eq)]
pub enum FileFault {
    /// The file is not there, or a read of it failed.
    Failed,
    /// The file is longer than the limit.
    Longer,
    /// There is no memory for the content.
    Memory,
}

/// Files by name.
pub trait Files {
    /// What the name holds, where it is said.
    ghost content: { Self → List ℕ → Option (List ℕ) };

    /// How often reads of the name have failed. A missing file counts.
    ghost faults: { Self → List ℕ → ℕ };

    /// The whole content of a file, of at most `limit` bytes. A read changes no content.
    fn read(&mut self, alloc: Global, name: &str, limit: u64) -> Result<Vec<u8>, FileFault>
        ensures same { (n : List ℕ) → content self.new n ≡ content self.old n }
        ensures counted { (n : List ℕ) → faults self.old n ≤ faults self.new n }
        ensures failed { IsErrOf result FileFault.Failed → Rose (faults self.old name.now) (faults self.new name.now) }
        ensures longer { IsErrOf result FileFault.Longer → IfSome (content self.old name.now) (λ bytes. limit < length bytes) }
        ensures ok { IfOk result (λ found. IfSome (content self.old name.now) (λ bytes. found.items ≡ bytes)) }
        ensures within { IfOk result (λ found. length found.items ≤ limit) };
}
