// A stream of the system that takes a text.
ghost use Rattle.std.specs.Prelude.{None};

use rt_io::{Sink, SinkFault};
use std::io::Write;

/// A stream of the system that takes a text in pieces. What was written is not said; each put that fails is counted.
#[derive(Drop)]
pub struct HostOut<W: Write> {
    stream: W,
    faults: u64,
}

impl<W: Write> HostOut<W> {
    /// The stream, to which nothing was put.
    pub fn new(stream: W) -> Self {
        HostOut { stream, faults: 0 }
    }
}

impl<W: Write> Sink for HostOut<W> {
    ghost written = { λ out. None };

    ghost faults = { λ out. out.faults };

    fn put(&mut self, piece: &[u8]) -> Result<(), SinkFault> {
        let outcome = match self.stream.write_all(piece) {
            Ok(()) => self.stream.flush(),
            Err(error) => Err(error),
        };
        match outcome {
            Ok(()) => Ok(()),
            Err(_) => {
                self.faults = self.faults.saturating_add(1);
                Err(SinkFault::Failed)
            }
        }
    }
}
