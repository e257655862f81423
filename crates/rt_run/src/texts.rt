// What is written for an object.
ghost use Rattle.std.specs.Prelude.{IfErr, IfOk};
ghost use Rattle.rt_lattice.specs.Lattices.{size_of};
ghost use Rattle.rt_link.specs.Links.{AreLinksOf};
ghost use Rattle.rt_liveness.specs.Ends.{ends_of};
ghost use Rattle.rt_sigs.specs.Signatures.{AreSignatures};
ghost use Rattle.rt_run.specs.Inside.NoTexts.{IsNoText};
ghost use Rattle.rt_run.specs.Objects.{IsInProfile, IsRefused};
ghost use Rattle.rt_run.specs.Texts.{IsObjectText, IsTextOf};

use crate::content::Content;
use crate::headers::header_text;
use crate::no_text::NoText;
use crate::objects::{Program, read_program};
use crate::reports::report_text;
use crate::sketches::sketches_text;
use rt_base::Memory;
use rt_lattice::Lattice;
use rt_sigs::Sigs;
use std::alloc::Global;

// What is written of an object of the profile.
fn text_of(
    alloc: Global,
    content: Content,
    program: &Program,
    sigs: &Sigs,
    lattice: &Lattice,
) -> Result<Vec<u8>, Memory>
    requires in_profile { IsInProfile program.now.object (ends_of program.now.object sigs.now) program.now.procs }
    requires links { AreLinksOf program.now.object program.now.links }
    requires signatures { AreSignatures (size_of lattice.now) sigs.now }
    ensures { IfOk result (λ text. IsTextOf content lattice.now sigs.now program.now.object text.items) }
{
    match content {
        Content::Lines(told) => report_text(alloc, told, program, sigs, lattice),
        Content::Sketches => sketches_text(alloc, program, sigs, lattice),
        Content::Header => header_text(alloc, program, sigs, lattice),
    }
}

/// What is written of the object that bytes are read as, or why there is nothing. The lattice has the constants, and these are
/// the signatures of functions outside.
pub fn object_text(
    alloc: Global,
    content: Content,
    bytes: &[u8],
    sigs: &Sigs,
    lattice: &Lattice,
) -> Result<Vec<u8>, NoText>
    requires { AreSignatures (size_of lattice.now) sigs.now }
    ensures refused { IfErr result (IsNoText (IsRefused sigs.now bytes.now)) }
    ensures written { IfOk result (λ text. IsObjectText content lattice.now sigs.now bytes.now text.items) }
{
    let program = read_program(alloc, bytes, sigs)?;
    Ok(text_of(alloc, content, &program, sigs, lattice)?)
}
