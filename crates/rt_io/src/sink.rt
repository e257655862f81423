// What takes a text in pieces.
ghost use Rattle.std.specs.Prelude.{◌≡◌, ◌≤◌, List, ℕ, Option, OnOk, OnErr};
ghost use Rattle.std.specs.Io.KnownBytes.{Appends};
ghost use Rattle.rt_base.specs.Outside.{Rose, AppendsFront};

/// Why a piece was not written whole.
#[derive(Clone, Copy, Debug, PartialEq, Eq)]
pub enum SinkFault {
    /// The write failed.
    Failed,
}

/// What takes a text in pieces.
pub trait Sink {
    /// What was written, where it is said.
    ghost written: { Self → Option (List ℕ) };

    /// How often puts have failed.
    ghost faults: { Self → ℕ };

    /// What a put that writes its piece whole can make of the sink.
    ghost takes: { Self → List ℕ → Self → Type 0 } = { λ _ _ _. Unit {0} };

    /// What a put that fails can make of it.
    ghost refuses: { Self → List ℕ → Self → Type 0 } = { λ _ _ _. Unit {0} };

    /// Appends the piece. Where it fails, a prefix of the piece was appended. It takes no memory.
    fn put(&mut self, piece: &[u8]) -> Result<(), SinkFault>
        ensures counted { faults self.old ≤ faults self.new }
        ensures ok { OnOk result (Appends (written self.old) (written self.new) piece.now) }
        ensures failed { OnErr result (Rose (faults self.old) (faults self.new)) }
        ensures front { OnErr result (AppendsFront (written self.old) (written self.new) piece.now) }
        ensures taken { OnOk result (takes self.old piece.now self.new) }
        ensures refused { OnErr result (refuses self.old piece.now self.new) };
}
