// A sink in memory.
ghost use Rattle.std.specs.Prelude.{◌≡◌, ◌↔◌, ◌≤◌, [], IfOk, IsTrue, Some, Contains, length, take};
ghost use Rattle.rt_io.specs.Memory.{Refuses, Takes, after_put, counted};

use crate::listed::is_listed;
use crate::sink::{Sink, SinkFault};
use std::alloc::{AllocError, Global};
use std::marker::Model;

/// A sink in memory with a fixed room. Puts are numbered from 0. A put whose piece doesn't fit into the room fails and
/// appends nothing; another one whose number is listed fails and appends a prefix of its piece.
#[derive(Drop)]
pub struct BytesSink {
    room: Vec<u8>,
    used: usize,
    fails: Vec<u32>,
    keeps: u32,
    puts: u64,
    faults: u64,
}

impl Model for BytesSink {
    ghost use Rattle.std.specs.Prelude.{◌≤◌, ◌-◌, take, vec_len};
    ghost use Rattle.rt_io.specs.Memory.{Kept};

    ghost Value = { Kept };

    ghost view = { λ s. record {
      written = take s.used s.room.items;
      left = vec_len s.room - s.used;
      fails = s.fails.items;
      keeps = s.keeps;
      faults = s.faults;
      puts = s.puts;
    } };

    ghost invariant = { λ s. s.used ≤ vec_len s.room };
}

impl BytesSink {
    /// An empty sink with room for `capacity` bytes, whose puts of the listed numbers fail and then append at most the first
    /// `keeps` bytes of their piece.
    pub fn new(
        alloc: Global,
        capacity: u32,
        fails: Vec<u32>,
        keeps: u32,
    ) -> Result<BytesSink, AllocError>
        ensures { IfOk result (λ sink. sink ≡
            record { written = []; left = capacity; fails = fails.items; keeps = keeps; faults = 0; puts = 0 }) }
    {
        let room = vec![in alloc; 0u8; capacity as usize]?;
        Ok(BytesSink {
            room,
            used: 0,
            fails,
            keeps,
            puts: 0,
            faults: 0,
        })
    }

    // How many bytes fit into what is left of the room.
    fn left(&self) -> usize
        ensures { result ≡ self.now.left }
    {
        self.room.len() - self.used
    }

    // Whether the number of the next put is listed.
    fn is_next_listed(&self) -> bool
        ensures { IsTrue result ↔ Contains self.now.fails self.now.puts }
    {
        is_listed(&self.fails, self.puts)
    }

    // What a put that fails keeps of a piece that fits.
    fn kept<'b>(&self, piece: &'b [u8]) -> &'b [u8]
        ensures { result.now ≡ take self.now.keeps piece.now }
    {
        &piece[..piece.len().min(self.keeps as usize)]
    }

    // Counts a put, and appends what is kept of its piece.
    fn append(&mut self, kept: &[u8])
        requires { length kept.now ≤ self.old.left }
        ensures { self.new ≡ after_put self.old kept.now self.old.faults }
    {
        let end = self.used + kept.len();
        self.room[self.used..end].copy_from_slice(kept);
        self.used = end;
        self.puts = self.puts.saturating_add(1);
    }

    // Counts a put that failed, and appends what is kept of its piece.
    fn fail(&mut self, kept: &[u8])
        requires { length kept.now ≤ self.old.left }
        ensures next { self.new ≡ after_put self.old kept.now (counted self.old.faults) }
        ensures rises { self.old.faults ≤ self.new.faults }
    {
        self.append(kept);
        self.faults = self.faults.saturating_add(1);
    }

    /// What was written.
    pub fn written(&self) -> &[u8]
        ensures { result.now ≡ self.now.written }
    {
        &self.room[..self.used]
    }
}

impl Sink for BytesSink {
    ghost written = { λ s. Some s.written };

    ghost faults = { λ s. s.faults };

    ghost takes = { Takes };

    ghost refuses = { Refuses };

    fn put(&mut self, piece: &[u8]) -> Result<(), SinkFault> {
        if piece.len() > self.left() {
            self.fail(b"");
            return Err(SinkFault::Failed);
        }
        if self.is_next_listed() {
            let kept = self.kept(piece);
            self.fail(kept);
            return Err(SinkFault::Failed);
        }
        self.append(piece);
        Ok(())
    }
}
