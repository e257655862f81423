// The text that `entail` writes.
ghost use Rattle.std.specs.Prelude.{◌≡◌, ◌≤◌, IfErr, IfOk, length};
ghost use Rattle.rt_run.specs.Entails.{IsEntailRefused, IsEntailText};
ghost use Rattle.rt_run.specs.Inside.NoTexts.{IsNoText};

use crate::no_text::NoText;
use crate::refusal::Refusal;
use rt_entail::{EntailFault, entails};
use rt_lattice::Lattice;
use std::alloc::Global;

/// The text that `entail` writes for a text of lines and a judgement, or why there is none. Constants are those of the lattice.
pub fn entail_text(
    alloc: Global,
    text: &[u8],
    judgement: &[u8],
    lattice: &Lattice,
) -> Result<Vec<u8>, NoText>
    requires { length text.now ≤ 1048576 }
    ensures refused { IfErr result (IsNoText (IsEntailRefused lattice.now.names judgement.now text.now)) }
    ensures written { IfOk result (λ written. IsEntailText lattice.now judgement.now text.now written.items) }
{
    match entails(alloc, text, judgement, lattice.names(), lattice.order()) {
        Ok(true) => Ok(b"yes\n".to_vec(alloc)?),
        Ok(false) => Ok(b"no\n".to_vec(alloc)?),
        Err(EntailFault::BadLine(place)) => Err(NoText::Refused(Refusal::BadLine(place))),
        Err(EntailFault::BadJudgement) => Err(NoText::Refused(Refusal::BadJudgement)),
        Err(EntailFault::Memory) => Err(NoText::Memory),
    }
}
