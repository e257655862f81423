// Files in memory.
ghost use Rattle.std.specs.Prelude.{◌≡◌, ◌↔◌, ◌<◌, ◌≤◌, List, ℕ, Contains, IsErrOf, IsTrue, IfOk, IfSome, IsNone, Some, None, length};
ghost use Rattle.rt_base.specs.Outside.{Rose};
ghost use Rattle.rt_io.specs.Memory.{FailsToRead, after_read, content_of, faults_of};

use crate::files::{FileFault, Files};
use crate::listed::is_listed;
use rt_base::Bytes;
use std::alloc::Global;
use std::marker::Model;

/// Files in memory: names with their contents, the first of a name counting. Reads are numbered from 0, and those whose
/// numbers are listed fail.
#[derive(Drop)]
pub struct FilesOf {
    contents: Vec<(Bytes, Bytes)>,
    fails: Vec<u32>,
    reads: u64,
}

impl Model for FilesOf {
    ghost use Rattle.rt_io.specs.Memory.{FileList};

    ghost Value = { FileList };

    ghost view = { λ f. record { contents = f.contents.items; fails = f.fails.items; reads = f.reads } };
}

impl FilesOf {
    /// The files with these contents, whose reads of these numbers fail. It takes no memory.
    pub fn new(contents: Vec<(Bytes, Bytes)>, fails: Vec<u32>) -> FilesOf
        ensures { result ≡ record { contents = contents.items; fails = fails.items; reads = 0 } }
    {
        FilesOf {
            contents,
            fails,
            reads: 0,
        }
    }

    // Counts a read, and says whether it is one that fails.
    fn count_read(&mut self) -> bool
        ensures next { self.new ≡ after_read self.old }
        ensures fails { IsTrue result ↔ Contains self.old.fails self.old.reads }
        ensures counted { (n : List ℕ) → faults_of self.old n ≤ faults_of self.new n }
        ensures listed { IsTrue result → (n : List ℕ) → Rose (faults_of self.old n) (faults_of self.new n) }
        ensures absent { (n : List ℕ) → content_of self.old.contents n ≡ None → Rose (faults_of self.old n) (faults_of self.new n) }
    {
        let number = self.reads;
        self.reads = number.saturating_add(1);
        is_listed(&self.fails, number)
    }
}

// The content of the first pair with the name.
fn find<'a>(contents: &'a [(Bytes, Bytes)], name: &[u8]) -> Option<&'a Bytes>
    ensures found { IfSome result (λ bytes. content_of contents.now name.now ≡ Some bytes.now) }
    ensures none { IsNone result → content_of contents.now name.now ≡ None }
{
    for pair in contents {
        if pair.0.items() == name {
            return Some(&pair.1);
        }
    }
    None
}

impl Files for FilesOf {
    ghost content = { λ f name. content_of f.contents name };

    ghost faults = { faults_of };

    // What a read of any files ensures, and which reads of these fail.
    fn read(&mut self, alloc: Global, name: &str, limit: u64) -> Result<Vec<u8>, FileFault>
        ensures same { (n : List ℕ) → content_of self.new.contents n ≡ content_of self.old.contents n }
        ensures counted { (n : List ℕ) → faults_of self.old n ≤ faults_of self.new n }
        ensures failed { IsErrOf result FileFault.Failed → Rose (faults_of self.old name.now) (faults_of self.new name.now) }
        ensures longer { IsErrOf result FileFault.Longer →
            IfSome (content_of self.old.contents name.now) (λ bytes. limit < length bytes) }
        ensures ok { IfOk result (λ found. IfSome (content_of self.old.contents name.now) (λ bytes. found.items ≡ bytes)) }
        ensures within { IfOk result (λ found. length found.items ≤ limit) }
        ensures next { self.new ≡ after_read self.old }
        ensures fails { IsErrOf result FileFault.Failed ↔ FailsToRead self.old name.now }
    {
        if self.count_read() {
            return Err(FileFault::Failed);
        }
        let Some(bytes) = find(&self.contents, name.as_bytes()) else {
            return Err(FileFault::Failed);
        };
        if bytes.len() as u64 > limit {
            return Err(FileFault::Longer);
        }
        match bytes.items().to_vec(alloc) {
            Ok(found) => Ok(found),
            Err(_) => Err(FileFault::Memory),
        }
    }
}
